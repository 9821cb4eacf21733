//! What is refused, and which of two refusals is answered.
use crate::asking::{flow, held, on_line, told};
use planner::flows::Flow;
use planner::periods::Period;
use planner::questions::Questions;
use std::test::Fail;

// With flow 0 booked on a line of 2 with period 8: a number, a flow, and the refusal of the earlier of its two faults. The
// last has its second, too few valid slots, only where flow 0 holds slots.
fn two_faults() -> [(u16, Flow, u8); 6] {
    [
        // in 8 bits the number would be 7
        (256 + 7, flow(0, 1, 0), 4),
        (64, flow(0, 1, 0), 4),
        (0, flow(0, 1, 0), 5),
        (0, flow(1, 1, 1), 11),
        (63, flow(0, 2, 9), 12),
        (63, flow(0, 1, 9), 13),
    ]
}

#[test]
fn the_earlier_fault_is_answered(rt: HostRuntime) -> Result<(), Fail> {
    let mut plan = on_line(2, 8)?;
    plan.enrol(0, flow(0, 1, 4))?;
    for (number, flow, refusal) in two_faults() {
        assert_eq!(rt; told(plan.enrol(number, flow)), Err((refusal, 0)));
    }
    plan.replan()?;
    let mut plan = plan.start();
    for (number, flow, refusal) in two_faults() {
        assert_eq!(rt; told(plan.admit(number, flow)), Err((refusal, 0)));
    }
    assert_eq!(rt; told(plan.admit(63, flow(0, 1, 5))), Err((14, 0)));
    plan.admit(63, flow(0, 1, 4))?;
    assert_eq!(rt; (held(&plan, 0), held(&plan, 63)), (0b1111, 0b1111_0000));
    Ok(())
}

#[test]
fn withdrawals(rt: HostRuntime) -> Result<(), Fail> {
    let mut plan = on_line(2, 8)?;
    plan.enrol(5, flow(0, 1, 4))?;
    for (number, refusal) in [(64, 4), (256 + 5, 4), (63, 15), (0, 15)] {
        assert_eq!(rt; told(plan.withdraw(number)), Err((refusal, 0)));
    }
    plan.withdraw(5)?;
    let mut plan = plan.start();
    for (number, refusal) in [(64, 4), (256 + 5, 4), (63, 15), (5, 15)] {
        assert_eq!(rt; told(plan.withdraw(number)), Err((refusal, 0)));
    }
    plan.admit(5, flow(1, 0, 8))?;
    assert_eq!(rt; held(&plan, 5), 0b1111_1111);
    Ok(())
}

#[test]
fn periods(rt: HostRuntime) -> Result<(), Fail> {
    for slots in [0, 256, 65535] {
        let refusal = Period::new(slots).err().map(|fault| fault.number());
        assert_eq!(rt; refusal, Some(1));
    }
    for slots in [1, 255] {
        assert_eq!(rt; u16::from(on_line(2, slots)?.period()), slots);
    }
    Ok(())
}
