//! The one call that makes every other, and carries the law of plans.
ghost use Rattle.std.specs.Prelude.{Bool, true, false};
ghost use Rattle.planner.specs.Laws.{LawStands};
ghost use Rattle.planner.specs.Outcomes.{Performed, FitsAlone};
ghost use Rattle.planner.specs.declared.any_plans.AnyPlan.TheVariants.{Resting as AtRest, Running as InUse};

use crate::any_plans::{AnyPlan, Outcome};
use crate::calls::Call;
use crate::plans::Plan;
use crate::states::{Resting, Running};
use fabric::Fabric;

/// Makes a call on a plan in either state. A call that the state does not allow changes nothing.
///
/// The law of plans stands on this call, for every fabric, every period and every list of calls from an opened plan: no
/// two flows are carried on one link in one slot, demands are met exactly, and admissions and re-plans are refused
/// exactly when they must be.
pub fn perform<F: Fabric>(plan: AnyPlan<F>, call: Call) -> Outcome<F>
    ensures performed { Performed F.Fabric.meaning plan call result }
    ensures fitted { FitsAlone call result }
    ensures law { LawStands }
{
    match plan {
        AnyPlan::Resting(resting) => perform_resting(resting, call),
        AnyPlan::Running(running) => perform_running(running, call),
    }
}

// One function for each state: the plans are of two types, and each allows other calls.
fn perform_resting<F: Fabric>(mut plan: Plan<F, Resting>, call: Call) -> Outcome<F>
    ensures performed { Performed F.Fabric.meaning (AtRest plan) call result }
    ensures fitted { FitsAlone call result }
{
    let answer = match call {
        Call::Enrol(number, flow) => plan.enrol(number, flow),
        Call::Withdraw(number) => plan.withdraw(number),
        Call::Replan => plan.replan(),
        Call::Start => return Outcome::Answered(AnyPlan::Running(plan.start()), Ok(())),
        Call::Fit(module) => return Outcome::Fitted(plan.fit(module)),
        Call::Admit(_, _) | Call::Rest => return Outcome::NotAllowed(AnyPlan::Resting(plan)),
    };
    Outcome::Answered(AnyPlan::Resting(plan), answer)
}

fn perform_running<F: Fabric>(mut plan: Plan<F, Running>, call: Call) -> Outcome<F>
    ensures performed { Performed F.Fabric.meaning (InUse plan) call result }
    ensures fitted { FitsAlone call result }
{
    let answer = match call {
        Call::Admit(number, flow) => plan.admit(number, flow),
        Call::Withdraw(number) => plan.withdraw(number),
        Call::Rest => return Outcome::Answered(AnyPlan::Resting(plan.rest()), Ok(())),
        Call::Enrol(_, _) | Call::Replan | Call::Start | Call::Fit(_) => {
            return Outcome::NotAllowed(AnyPlan::Running(plan));
        }
    };
    Outcome::Answered(AnyPlan::Running(plan), answer)
}
