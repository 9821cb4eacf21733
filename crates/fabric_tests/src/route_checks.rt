//! Damaged route lists and the places where they are refused, worked out by hand from the rules.
use fabric::faults::FabricFault;
use fabric::route_checks::{ListSummary, check};

// Four terminals, four links, and the routes 0 to 1 over {0, 1}, 1 to 2 over {1, 2}, 2 to 3 over {2, 3} and
// 3 to 0 over {3, 0}; then a byte that is not the list's.
const RING: [u8; 28] = [
    0, 25, 1, 4, 0, 4, 4, 0, 1, 2, 0, 1, 1, 2, 2, 1, 2, 2, 3, 2, 2, 3, 3, 0, 2, 3, 0, 9,
];

// Where two bytes are written over the ring's, which, how many bytes are then checked, and where they are refused.
const DAMAGED: [(usize, [u8; 2], usize, usize); 27] = [
    // no byte, too few, and another size than the first two bytes say
    (0, [0, 0], 0, 0),
    (0, [0, 4], 6, 0),
    (0, [0, 24], 27, 0),
    (0, [0, 26], 27, 0),
    (0, [1, 25], 27, 0),
    (0, [25, 0], 27, 0),
    // the version, the terminal count, the link count
    (2, [0, 4], 27, 2),
    (2, [2, 4], 27, 2),
    (2, [1, 1], 27, 3),
    (2, [1, 129], 27, 3),
    (4, [0, 0], 27, 4),
    (4, [1, 1], 27, 4),
    (4, [4, 0], 27, 4),
    // a route fewer or more than the bytes have, and a byte too many
    (5, [4, 3], 27, 22),
    (5, [4, 5], 27, 27),
    (0, [0, 26], 28, 27),
    // the ends of a route: no terminal, one terminal twice, a pair that came before
    (7, [4, 1], 27, 7),
    (7, [0, 4], 27, 8),
    (7, [1, 1], 27, 8),
    (12, [0, 1], 27, 13),
    (3, [3, 0], 27, 18),
    // the count of its links: none, one too few in the last route, one too many
    (9, [0, 0], 27, 9),
    (24, [1, 3], 27, 26),
    (24, [3, 3], 27, 27),
    // its links
    (10, [4, 1], 27, 10),
    (10, [0, 4], 27, 11),
    (4, [0, 3], 27, 21),
];

// Where the first `size` bytes are refused.
fn place_of(bytes: &[u8], size: usize) -> Option<usize> {
    match check(bytes.get(..size)?) {
        Err(FabricFault::BadList { place }) => Some(place),
        _ => None,
    }
}

// The same of the ring, once two of its bytes are written over.
fn refused_at(at: usize, two: [u8; 2], size: usize) -> Option<usize> {
    if at > 26 {
        return None;
    }
    let mut bytes = RING;
    bytes[at..at + 2].copy_from_slice(&two);
    place_of(&bytes, size)
}

#[test]
fn damaged_lists(rt: HostRuntime) {
    for (at, two, size, place) in DAMAGED {
        assert_eq!(rt; refused_at(at, two, size), Some(place));
    }
}

// The largest fabric, with a route from its last terminal over its last link.
#[test]
fn largest(rt: HostRuntime) {
    assert_eq!(rt;
        check(&[0, 9, 1, 128, 1, 0, 1, 127, 0, 1, 255]),
        Ok(ListSummary {
            terminals: 128,
            links: 256,
            routes: 1,
        })
    );
}

// Cut at each byte, with a size that says so, the ring is refused where it ends.
#[test]
fn cut_lists(rt: HostRuntime) {
    for size in 2..27u8 {
        let place = if size < 7 { 0 } else { usize::from(size) };
        assert_eq!(rt;
            refused_at(0, [0, size - 2], usize::from(size)),
            Some(place)
        );
    }
}
