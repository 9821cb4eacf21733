//! The calls that a session makes on its plan.
ghost use Rattle.std.specs.Prelude.{◌≡◌, ◌≢◌, true, List, Option};
ghost use Rattle.fabric.specs.declared.modules.Module.{Module};
ghost use Rattle.labels.specs.declared.names.Name.{Name};
ghost use Rattle.planner.specs.Outcomes.{any_shows};
ghost use Rattle.planner.specs.Steps.{Step, allowed};
ghost use Rattle.planner.specs.declared.calls.Call.TheVariants.{Fit};
ghost use Rattle.session.specs.Output.{Opens, unlabelled};
ghost use Rattle.session.specs.Parts.{state_of};
ghost use Rattle.session.specs.Sessions.{Calls};

use crate::faults::ScriptFault;
use crate::sessions::Session;
use core::mem::replace_with;
use fabric::Fabric;
use planner::any_plans::{AnyPlan, Outcome};
use planner::calls::Call;
use planner::performing::perform;
use planner::periods::Period;
use planner::plan_faults::PlanFault;
use planner::plans::Plan;

/// Whether the state allows the call.
// The planner's `perform` refuses the same calls, but only once it has the plan. A label is checked between the state and the plan,
// and a plan is large, so one that need not be moved stays where it is.
pub(crate) fn allows(running: bool, call: Call) -> bool
    ensures { result ≡ allowed running call }
{
    match call {
        Call::Enrol(_, _) | Call::Replan | Call::Start | Call::Fit(_) => !running,
        Call::Admit(_, _) | Call::Rest => running,
        Call::Withdraw(_) => true,
    }
}

/// Makes a call that is no fit, where the plan stands.
// `replace_with` is `core`'s alone: `std::mem` does not pass it on.
pub(crate) fn make<F: Fabric + Drop>(plan: &mut AnyPlan<F>, call: Call) -> Result<(), ScriptFault>
    requires { (d : Module) → call ≢ Fit d }
    ensures { (labels : List (Option Name)) → Calls (record { shown = any_shows F.Fabric.meaning plan.old; labels = labels }) call result (record { shown = any_shows F.Fabric.meaning plan.new; labels = labels }) }
{
    if !allows(plan.is_running(), call) {
        return Err(ScriptFault::WrongState);
    }
    replace_with(plan, call, performed)?;
    Ok(())
}

// The plan after a call that its state allows, and that is no fit. `perform` takes the plan by value, and gives it back.
fn performed<F: Fabric + Drop>(plan: AnyPlan<F>, call: Call) -> (AnyPlan<F>, Result<(), PlanFault>)
    requires allows { allowed (any_shows F.Fabric.meaning plan).running call ≡ true }
    requires no_fit { (d : Module) → call ≢ Fit d }
    ensures { Step (any_shows F.Fabric.meaning plan) call result.1 (any_shows F.Fabric.meaning result.0) }
{
    match perform(plan, call) {
        Outcome::Answered(after, answer) => (after, answer),
        Outcome::NotAllowed(_) | Outcome::Fitted(_) => unreachable(),
    }
}

impl<F: Fabric + Drop> Session<F> {
    /// An empty plan over the fabric, with a period of that length.
    pub(crate) fn open(fabric: F, length: Period) -> Self
        ensures opens { Opens (F.Fabric.meaning fabric) length.slots (state_of result).shown }
        ensures none { result.labels ≡ unlabelled }
    {
        Session {
            plan: AnyPlan::Resting(Plan::open(fabric, length)),
            labels: [None; 64],
        }
    }
}
