//! Plans on lines: what is placed, in which order, and what a re-plan finds room for.
use crate::asking::{flow, held, on_line, told};
use planner::questions::Questions;
use std::test::Fail;

#[test]
fn a_link_is_filled_and_no_more(rt: HostRuntime) -> Result<(), Fail> {
    let mut plan = on_line(2, 8)?;
    plan.enrol(0, flow(0, 1, 4))?;
    plan.enrol(1, flow(0, 1, 4))?;
    plan.replan()?;
    assert_eq!(rt; (held(&plan, 0), held(&plan, 1)), (0b1111, 0b1111_0000));
    plan.withdraw(1)?;
    plan.enrol(1, flow(0, 1, 5))?;
    assert_eq!(rt; told(plan.replan()), Err((17, 0b11)));
    assert_eq!(rt; (held(&plan, 0), held(&plan, 1)), (0b1111, 0));
    Ok(())
}

// The flow to terminal 2 finds its two links free in different slots, and is placed once the others may move.
#[test]
fn a_replan_finds_room(rt: HostRuntime) -> Result<(), Fail> {
    let mut plan = on_line(3, 2)?.start();
    plan.admit(0, flow(0, 1, 1))?;
    plan.admit(1, flow(1, 2, 1))?;
    plan.admit(2, flow(1, 2, 1))?;
    plan.withdraw(1)?;
    assert_eq!(rt; told(plan.admit(3, flow(0, 2, 1))), Err((14, 0)));
    assert_eq!(rt; (held(&plan, 2), plan.demand(3)), (0b10, 0));
    let mut plan = plan.rest();
    plan.enrol(3, flow(0, 2, 1))?;
    plan.replan()?;
    for (number, slots) in [(0, 0b01), (2, 0b01), (3, 0b10)] {
        assert_eq!(rt; held(&plan, number), slots);
    }
    Ok(())
}

// Each flow overlaps the next of 0, 3, 1, 2. That is the order: flow 3 may not come last before 1 and 2 are put aside.
#[test]
fn a_path_has_an_order(rt: HostRuntime) -> Result<(), Fail> {
    let mut plan = on_line(6, 2)?;
    for (source, number) in [(0, 0), (1, 3), (2, 1), (3, 2)] {
        plan.enrol(number, flow(source, source + 2, 1))?;
    }
    plan.replan()?;
    for (number, slots) in [(0, 0b01), (3, 0b10), (1, 0b01), (2, 0b10)] {
        assert_eq!(rt; held(&plan, number), slots);
    }
    Ok(())
}

#[test]
fn nothing_to_plan(rt: HostRuntime) -> Result<(), Fail> {
    let mut plan = on_line(3, 5)?;
    plan.replan()?;
    for number in 0..64u16 {
        assert_eq!(rt; (plan.demand(number), held(&plan, number)), (0, 0));
    }
    Ok(())
}
