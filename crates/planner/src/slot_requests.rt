//! Requests for slots. The struct stands alone: its ghost field cites what the table's module may not.
ghost use Rattle.std.specs.Prelude.{◌≡◌, false};
ghost use Rattle.planner.specs.FlowSets.{members};

use crate::flow_numbers::FlowNumber;
use crate::flow_sets::FlowSet;

/// A flow asks for so many slots of a period, none of them held by a flow of `beside`. It is not of `beside` itself.
#[derive(Clone, Copy, PartialEq, Eq, Debug)]
pub(crate) struct SlotRequest {
    pub(crate) flow: FlowNumber,
    pub(crate) beside: FlowSet,
    pub(crate) demand: u16,
    pub(crate) period: u8,
    ghost not_beside: { members beside flow.number ≡ false },
}

/// Too few slots are valid for what a flow asks.
#[derive(Clone, Copy, PartialEq, Eq, Debug)]
pub(crate) struct TooFew;
