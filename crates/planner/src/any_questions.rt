//! The questions about a plan whose state is known only when the program runs.
ghost use Rattle.std.specs.Prelude.{◌≡◌};
ghost use Rattle.planner.specs.Bookings.{booked_numbered};
ghost use Rattle.planner.specs.Outcomes.{any_shows};
ghost use Rattle.planner.specs.declared.any_plans.AnyPlan.TheVariants.{Resting as AtRest, Running as InUse};

use crate::any_plans::AnyPlan;
use crate::flows::Flow;
use crate::questions::Questions;
use fabric::Fabric;
use fabric::pairs::Pair;

impl<F: Fabric> AnyPlan<F> {
    /// Whether the plan is running.
    pub fn is_running(&self) -> bool
        ensures { result ≡ (any_shows F.Fabric.meaning self.now).running }
    {
        matches!(self, AnyPlan::Running(_))
    }
}

// The plans in the two states are of different types, so each of the four questions is passed on in two arms.
impl<F: Fabric> Questions for AnyPlan<F> {
    ghost shown = { λ plan. any_shows F.Fabric.meaning plan };

    ghost numbered = { elim [ AtRest plan ↦ λ n slot held. booked_numbered plan.bookings n (plan.owned n slot held) | InUse plan ↦ λ n slot held. booked_numbered plan.bookings n (plan.owned n slot held) ] };

    fn period(&self) -> u8 {
        match self {
            AnyPlan::Resting(plan) => plan.period(),
            AnyPlan::Running(plan) => plan.period(),
        }
    }

    fn flow(&self, number: u16) -> Option<Flow> {
        match self {
            AnyPlan::Resting(plan) => plan.flow(number),
            AnyPlan::Running(plan) => plan.flow(number),
        }
    }

    fn holds(&self, number: u16, slot: u16) -> bool {
        match self {
            AnyPlan::Resting(plan) => plan.holds(number, slot),
            AnyPlan::Running(plan) => plan.holds(number, slot),
        }
    }

    fn crosses(&self, pair: Pair, link: u16) -> bool {
        match self {
            AnyPlan::Resting(plan) => plan.crosses(pair, link),
            AnyPlan::Running(plan) => plan.crosses(pair, link),
        }
    }
}
