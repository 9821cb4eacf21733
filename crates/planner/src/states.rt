//! The two states of a plan, as types: what a plan may be asked for depends on its state when the program is compiled.

/// No sample is on its way: the plan may be re-planned and fitted.
#[derive(Clone, Copy, PartialEq, Eq, Debug)]
pub struct Resting;

/// Flows send by the plan: nothing that is held may move.
#[derive(Clone, Copy, PartialEq, Eq, Debug)]
pub struct Running;
