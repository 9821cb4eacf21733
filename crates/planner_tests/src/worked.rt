//! Worked plans over route lists: eleven flows, and a ring.
use crate::asking::{flow, held, told};
use fabric::Fabric;
use fabric::route_lists::RouteList;
use planner::periods::Period;
use planner::plans::Plan;
use planner::questions::Questions;
use planner::states::Resting;
use std::test::Fail;

// Twelve terminals, eight links, and a line for each route: 1 to 0 over {1, 2}, 2 to 0 over {1}, 3 to 0 over {1, 5, 7},
// 4 to 0 over {1, 3, 4}, 5 to 0 over {2}, 6 to 0 over {3}, 7 to 0 over {4}, 8 to 0 over {5, 7}, 9 to 0 over {5, 6}, 10 to
// 0 over {6} and 11 to 0 over {7}.
const ELEVEN: &[u8; 58] = b"\
    \x00\x38\x01\x0c\x00\x08\x0b\
    \x01\x00\x02\x01\x02\
    \x02\x00\x01\x01\
    \x03\x00\x03\x01\x05\x07\
    \x04\x00\x03\x01\x03\x04\
    \x05\x00\x01\x02\
    \x06\x00\x01\x03\
    \x07\x00\x01\x04\
    \x08\x00\x02\x05\x07\
    \x09\x00\x02\x05\x06\
    \x0a\x00\x01\x06\
    \x0b\x00\x01\x07\
";

// Flow n goes from terminal n to 0: n, its demand, and the slots that it is to hold, bit s for slot s.
const FLOWS: [(u16, u16, u64); 11] = [
    (1, 2, 0b0000_0011),
    (2, 2, 0b0000_1100),
    (3, 3, 0b0111_0000),
    (4, 1, 0b1000_0000),
    (5, 6, 0b1111_1100),
    (6, 7, 0b0111_1111),
    (7, 7, 0b0111_1111),
    (8, 1, 0b0000_0001),
    (9, 4, 0b1000_1110),
    (10, 4, 0b0111_0001),
    (11, 4, 0b1000_1110),
];

fn enrol_all<F: Fabric>(plan: &mut Plan<F, Resting>) -> Result<(), Fail> {
    for (number, demand, _) in FLOWS {
        plan.enrol(number, flow(number, 0, demand))?;
    }
    Ok(())
}

#[test]
fn eleven_flows(rt: HostRuntime) -> Result<(), Fail> {
    let mut plan = Plan::open(RouteList::new(ELEVEN), Period::new(8)?);
    enrol_all(&mut plan)?;
    plan.replan()?;
    for (number, demand, slots) in FLOWS {
        assert_eq!(rt; (plan.demand(number), held(&plan, number)), (demand, slots));
    }
    Ok(())
}

// Flows 1 to 4 all cross link 1, and demand nine slots of eight.
#[test]
fn one_slot_too_many(rt: HostRuntime) -> Result<(), Fail> {
    let mut plan = Plan::open(RouteList::new(ELEVEN), Period::new(8)?);
    enrol_all(&mut plan)?;
    plan.withdraw(2)?;
    plan.enrol(2, flow(2, 0, 3))?;
    assert_eq!(rt; told(plan.replan()), Err((17, 0b11110)));
    for (number, demand, _) in FLOWS {
        let demand = if number == 2 { 3 } else { demand };
        assert_eq!(rt; (plan.demand(number), held(&plan, number)), (demand, 0));
    }
    Ok(())
}

// Five terminals, four links, and a line for each route: 0 to 1 over {0, 1}, 1 to 2 over {1, 2}, 2 to 3 over {2, 3}, 3 to
// 0 over {3, 0} and 4 to 0 over {0}.
const RING: &[u8; 31] = b"\
    \x00\x1d\x01\x05\x00\x04\x05\
    \x00\x01\x02\x00\x01\
    \x01\x02\x02\x01\x02\
    \x02\x03\x02\x02\x03\
    \x03\x00\x02\x03\x00\
    \x04\x00\x01\x00\
";

// With 0 and 2 in one slot and 1 and 3 in the other the ring would have a placing.
#[test]
fn a_ring_has_no_order(rt: HostRuntime) -> Result<(), Fail> {
    let mut plan = Plan::open(RouteList::new(RING), Period::new(2)?);
    for number in 0..4u16 {
        plan.enrol(number, flow(number, (number + 1) % 4, 1))?;
    }
    assert_eq!(rt; told(plan.replan()), Err((16, 0b1111)));
    // a flow beside the ring is put aside, and the ring remains
    plan.enrol(4, flow(4, 0, 1))?;
    assert_eq!(rt; told(plan.replan()), Err((16, 0b1111)));
    assert_eq!(rt; held(&plan, 0), 0);
    // without one of its flows the ring is a path
    plan.withdraw(0)?;
    plan.replan()?;
    for (number, slots) in [(1, 0b01), (2, 0b10), (3, 0b01), (4, 0b10)] {
        assert_eq!(rt; held(&plan, number), slots);
    }
    Ok(())
}
