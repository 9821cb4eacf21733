//! Trees: a worked route, and what is refused.
use fabric::Fabric;
use fabric::faults::FabricFault;
use fabric::pairs::Pair;
use fabric::trees::Tree;
use std::test::Fail;

#[test]
fn climbs_and_descends(rt: HostRuntime) -> Result<(), Fail> {
    let mut tree = Tree::new();
    tree.fill(&[0, 0, 1])?;
    let pair = Pair {
        source: 3,
        destination: 2,
    };
    assert_eq!(rt; tree.links(), 6);
    let crossed = [true, false, false, true, true, false, false];
    for (link, wanted) in (0..7).zip(crossed) {
        assert_eq!(rt; tree.crosses(pair, link), wanted);
    }
    Ok(())
}

#[test]
fn refuses_and_stays(rt: HostRuntime) -> Result<(), Fail> {
    let mut tree = Tree::new();
    tree.fill(&[0, 1])?;
    let pair = Pair {
        source: 2,
        destination: 0,
    };
    let refused: [&[u16]; 5] = [&[], &[0; 128], &[1], &[0, 2], &[0, 256]];
    for parents in refused {
        assert_eq!(rt; tree.fill(parents), Err(FabricFault::OutsideLimits));
        assert_eq!(rt; tree.terminals(), 3);
        assert!(rt; tree.crosses(pair, 0), "still by way of terminal 1");
    }
    tree.fill(&[0; 127])?;
    assert_eq!(rt; tree.terminals(), 128);
    Ok(())
}
