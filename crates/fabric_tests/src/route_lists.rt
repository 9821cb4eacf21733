//! Route lists as fabrics: a ring, and a list that is refused.
use fabric::pairs::Pair;
use fabric::route_lists::RouteList;
use fabric::{Fabric, Size};

// The routes 0 to 1 over {0, 1}, 1 to 2 over {1, 2}, 2 to 3 over {2, 3} and 3 to 0 over {3, 0}.
const RING: [u8; 27] = [
    0, 25, 1, 4, 0, 4, 4, 0, 1, 2, 0, 1, 1, 2, 2, 1, 2, 2, 3, 2, 2, 3, 3, 0, 2, 3, 0,
];

#[test]
fn a_ring(rt: HostRuntime) {
    let ring = RouteList::new(&RING);
    assert_eq!(rt;
        ring.size(),
        Size {
            terminals: 4,
            links: 4,
        }
    );
    for source in 0..5u16 {
        for destination in 0..5u16 {
            let pair = Pair {
                source,
                destination,
            };
            let routed = source < 4 && destination == (source + 1) % 4;
            assert_eq!(rt; ring.routed(pair), routed);
            for link in 0..300u16 {
                let crossed = routed && (link == source || link == destination);
                assert_eq!(rt; ring.crosses(pair, link), crossed);
            }
        }
    }
}

#[test]
fn a_refused_list(rt: HostRuntime) {
    let bare = RouteList::new(&RING[..26]);
    assert_eq!(rt;
        bare.size(),
        Size {
            terminals: 2,
            links: 1,
        }
    );
    assert_eq!(rt;
        bare.routed(Pair {
            source: 0,
            destination: 1,
        }),
        false
    );
}
