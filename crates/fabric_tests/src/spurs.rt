//! Spurs: worked routes, also of a spur on a spur, and what fits.
use fabric::faults::FabricFault;
use fabric::lines::Line;
use fabric::modules::{Hop, Module};
use fabric::pairs::Pair;
use fabric::spurs::{Spur, fits};
use fabric::{Fabric, Size};
use std::process::Abort;
use std::test::Fail;

// The ends of a pair, and the links that its route crosses: none if it has no route.
#[derive(Drop)]
struct Row<'a>(u16, u16, &'a [u16]);

fn expect<F: Fabric>(rt: &impl Abort, fabric: &F, size: (u16, u16), rows: &[Row]) {
    assert_eq!(rt; (fabric.terminals(), fabric.links()), size);
    for row in rows {
        let pair = Pair {
            source: row.0,
            destination: row.1,
        };
        assert_eq!(rt; fabric.routed(pair), !row.2.is_empty());
        for link in 0..8 {
            assert_eq!(rt; fabric.crosses(pair, link), row.2.contains(&link));
        }
    }
}

#[test]
fn a_spur_on_a_spur(rt: HostRuntime) -> Result<(), Fail> {
    let spur = Spur::new(Line::new(3)?, Module { port: 1, count: 2 });
    let rows = [Row(3, 0, &[0, 2]), Row(1, 4, &[3]), Row(3, 4, &[])];
    expect(&rt, &spur, (5, 4), &rows);
    let pile = Spur::new(spur, Module { port: 3, count: 1 });
    let rows = [Row(5, 0, &[0, 2, 4]), Row(2, 5, &[1, 3, 5]), Row(5, 4, &[])];
    expect(&rt, &pile, (6, 6), &rows);
    Ok(())
}

#[test]
fn a_misfit_adds_nothing(rt: HostRuntime) -> Result<(), Fail> {
    let line = Line::new(3)?;
    let size = (line.terminals(), line.links());
    let spur = Spur::new(line, Module { port: 9, count: 2 });
    expect(&rt, &spur, size, &[Row(0, 2, &[0, 1]), Row(3, 0, &[])]);
    Ok(())
}

#[test]
fn ways_by_a_module(rt: HostRuntime) {
    let below = Size {
        terminals: 3,
        links: 2,
    };
    let module = Module { port: 1, count: 2 };
    for (source, destination, way) in [
        (0, 2, Hop::Below),
        (
            3,
            0,
            Hop::Out(Pair {
                source: 1,
                destination: 0,
            }),
        ),
        (
            3,
            4,
            Hop::Out(Pair {
                source: 1,
                destination: 4,
            }),
        ),
        (
            1,
            4,
            Hop::In(Pair {
                source: 1,
                destination: 1,
            }),
        ),
        (0, 5, Hop::Below),
    ] {
        let pair = Pair {
            source,
            destination,
        };
        assert_eq!(rt; module.hop(below, pair), way);
    }
}

#[test]
fn what_fits(rt: HostRuntime) -> Result<(), Fail> {
    let line = Line::new(3)?;
    for (port, count, answer) in [
        (2, 8, Ok(())),
        (0, 0, Err(FabricFault::OutsideLimits)),
        (0, 9, Err(FabricFault::OutsideLimits)),
        (3, 1, Err(FabricFault::Misfit)),
        (3, 9, Err(FabricFault::OutsideLimits)),
    ] {
        assert_eq!(rt; fits(&line, Module { port, count }), answer);
    }
    Ok(())
}
