//! Calls that a plan's state does not allow, and a fit.
use crate::asking::{flow, held, on_line, told};
use fabric::Fabric;
use fabric::modules::Module;
use planner::any_plans::{AnyPlan, Outcome};
use planner::calls::Call;
use planner::performing::perform;
use planner::questions::Questions;
use std::process::Abort;
use std::test::Fail;

const MODULE: Module = Module { port: 1, count: 2 };

// The plan after calls that its state does not allow.
fn unmoved<F: Fabric + Drop>(mut plan: AnyPlan<F>, calls: &[Call]) -> Result<AnyPlan<F>, Fail> {
    for call in calls {
        let Outcome::NotAllowed(same) = perform(plan, *call) else {
            return Err(Fail::new("the call was made"));
        };
        plan = same;
    }
    Ok(plan)
}

// Flow 1 holds slots 0 and 1, and no other flow is booked.
fn only_flow_one<F: Fabric>(rt: &impl Abort, plan: &AnyPlan<F>) {
    for slot in 0..5u16 {
        assert_eq!(rt; plan.sender(0, slot), if slot < 2 { Some(1) } else { None });
    }
    for number in 0..64u16 {
        assert_eq!(rt; plan.demand(number), if number == 1 { 2 } else { 0 });
    }
}

#[test]
fn calls_in_the_wrong_state(rt: HostRuntime) -> Result<(), Fail> {
    let mut resting = on_line(3, 4)?;
    resting.enrol(1, flow(0, 1, 2))?;
    resting.replan()?;
    let calls = [Call::Rest, Call::Admit(2, flow(1, 2, 1))];
    let plan = unmoved(AnyPlan::Resting(resting), &calls)?;
    assert!(rt; !plan.is_running());
    only_flow_one(&rt, &plan);
    let Outcome::Answered(plan, answer) = perform(plan, Call::Start) else {
        return Err(Fail::new("not answered"));
    };
    answer?;
    let enrol = Call::Enrol(2, flow(1, 2, 1));
    let calls = [Call::Start, enrol, Call::Replan, Call::Fit(MODULE)];
    let plan = unmoved(plan, &calls)?;
    assert!(rt; plan.is_running());
    only_flow_one(&rt, &plan);
    Ok(())
}

#[test]
fn a_fit_keeps_slots_and_adds_routes(rt: HostRuntime) -> Result<(), Fail> {
    let mut plan = on_line(3, 4)?;
    plan.enrol(0, flow(0, 2, 2))?;
    plan.replan()?;
    assert_eq!(rt; told(plan.enrol(1, flow(3, 0, 1))), Err((12, 0)));
    plan.fits(MODULE)?;
    let mut plan = plan.fit(MODULE);
    assert_eq!(rt; held(&plan, 0), 0b11);
    plan.enrol(1, flow(3, 0, 1))?;
    assert_eq!(rt; (held(&plan, 0), held(&plan, 1)), (0b11, 0));
    plan.replan()?;
    assert_eq!(rt; (held(&plan, 0), held(&plan, 1)), (0b11, 0b100));
    Ok(())
}
