//! Drives a plan through calls in a bad order.
ghost use Rattle.std.specs.Prelude.{◌≡◌, ◌≢◌};
ghost use Rattle.fabric.specs.declared.modules.Module.{Module};
ghost use Rattle.planner.specs.declared.calls.Call.TheVariants.{Fit};

use crate::dice::Dice;
use crate::looks::{doubles, miscounts};
use crate::tallies::Tally;
use fabric::Fabric;
use fabric::pairs::Pair;
use planner::any_plans::{AnyPlan, Outcome};
use planner::calls::Call;
use planner::flows::Flow;
use planner::performing::perform;

// No slot, few, or more than the period has.
fn any_demand(dice: &mut Dice) -> u16 {
    match dice.below(16) {
        0 => 0,
        1..=8 => 1,
        9..=12 => 2,
        13 | 14 => 4,
        _ => 300,
    }
}

// A flow between any two of so many terminals and the first number that is none.
fn any_flow(dice: &mut Dice, terminals: u16) -> Flow {
    let numbers = terminals.saturating_add(1);
    Flow {
        ends: Pair {
            source: dice.below(numbers),
            destination: dice.below(numbers),
        },
        demand: any_demand(dice),
    }
}

// A call, most often one that the state allows, and no fit.
fn any_call(dice: &mut Dice, terminals: u16, running: bool) -> Call
    ensures { (d : Module) → result ≢ Fit d }
{
    // 0 to 64, which is no flow's
    let number = dice.below(17).saturating_mul(4);
    match dice.below(16) {
        0..=5 if running => Call::Admit(number, any_flow(dice, terminals)),
        0..=6 => Call::Enrol(number, any_flow(dice, terminals)),
        7 => Call::Admit(number, any_flow(dice, terminals)),
        8..=11 => Call::Withdraw(number),
        12 if running => Call::Rest,
        12 | 13 => Call::Start,
        14 => Call::Rest,
        _ => Call::Replan,
    }
}

// Makes a call that is no fit, and notes how it came out.
fn step<F: Fabric + Drop>(plan: AnyPlan<F>, call: Call, tally: &mut Tally) -> AnyPlan<F>
    requires { (d : Module) → call ≢ Fit d }
{
    tally.note_call();
    match perform(plan, call) {
        Outcome::Answered(after, answer) => {
            tally.note_answer(answer);
            after
        }
        Outcome::NotAllowed(same) => {
            tally.note_not_allowed();
            same
        }
        Outcome::Fitted(_) => unreachable(),
    }
}

/// Makes so many calls, looks at the plan after each, and counts what was done and seen.
pub(crate) fn drive<F: Fabric + Drop>(
    mut plan: AnyPlan<F>,
    twin: &F,
    dice: &mut Dice,
    calls: u16,
) -> (AnyPlan<F>, Tally) {
    let mut tally = Tally::default();
    for _ in 0..calls {
        let call = any_call(dice, twin.terminals(), plan.is_running());
        plan = step(plan, call, &mut tally);
        tally.note_look(doubles(&plan, twin), miscounts(&plan));
    }
    (plan, tally)
}
