//! The questions, on a plan of which one flow has its slots apart.
use crate::asking::{flow, held, on_line};
use fabric::lines::Line;
use planner::plans::Plan;
use planner::questions::Questions;
use planner::states::Running;
use std::test::Fail;

// On a line of 3 with period 8: flow 1 over link 0 in slots 1 to 3, flow 2 over both links in 0, 4 and 5, and flow 3
// over link 1 in 1.
fn running() -> Result<Plan<Line, Running>, Fail> {
    let mut plan = on_line(3, 8)?.start();
    plan.admit(0, flow(0, 1, 1))?;
    plan.admit(1, flow(0, 1, 3))?;
    plan.withdraw(0)?;
    plan.admit(2, flow(0, 2, 3))?;
    plan.admit(3, flow(2, 1, 1))?;
    Ok(plan)
}

#[test]
fn flows_and_their_slots(rt: HostRuntime) -> Result<(), Fail> {
    let plan = running()?;
    assert_eq!(rt; plan.period(), 8);
    // a number, and the demand, the slots and the wait of its flow; in 8 bits 257 would be 1
    for (number, demand, slots, wait) in [
        (0, 0, 0, 0),
        (1, 3, 0b1110, 1),
        (2, 3, 0b11_0001, 4),
        (3, 1, 0b10, 0),
        (63, 0, 0, 0),
        (64, 0, 0, 0),
        (257, 0, 0, 0),
    ] {
        let seen = (plan.demand(number), held(&plan, number), plan.wait(number));
        assert_eq!(rt; seen, (demand, slots, wait));
        assert_eq!(rt; plan.flow(number).is_some(), demand > 0);
    }
    Ok(())
}

#[test]
fn senders(rt: HostRuntime) -> Result<(), Fail> {
    let plan = running()?;
    // a link, a slot, and the flow that sends; in 8 bits 256 would be 0
    for (link, slot, sender) in [
        (0, 0, Some(2)),
        (0, 1, Some(1)),
        (0, 4, Some(2)),
        (0, 5, Some(2)),
        (0, 6, None),
        (1, 0, Some(2)),
        (1, 1, Some(3)),
        (1, 2, None),
        (2, 0, None),
        (256, 0, None),
        (0, 8, None),
        (0, 256, None),
    ] {
        assert_eq!(rt; plan.sender(link, slot), sender);
    }
    Ok(())
}
