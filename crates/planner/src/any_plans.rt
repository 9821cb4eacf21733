//! Plans in either state, and how a call comes out. The enums stand alone: definitions that contracts cite name them.
use crate::plan_faults::PlanFault;
use crate::plans::Plan;
use crate::states::{Resting, Running};
use fabric::Fabric;
use fabric::spurs::Spur;

/// A plan whose state is known only when the program runs.
// Plans and what comes of them are not compared or printed: a fabric need not be.
#[derive(Drop)]
pub enum AnyPlan<F: Fabric> {
    Resting(Plan<F, Resting>),
    Running(Plan<F, Running>),
}

/// What became of a call.
#[derive(Drop)]
pub enum Outcome<F: Fabric> {
    /// The plan after the call, and its answer.
    Answered(AnyPlan<F>, Result<(), PlanFault>),
    /// The plan over the fabric with the module.
    Fitted(Plan<Spur<F>, Resting>),
    /// The plan's state does not allow the call, and the plan is as it was.
    NotAllowed(AnyPlan<F>),
}
