//! Why flows are not placed.
use crate::flow_sets::FlowSet;

#[derive(Clone, Copy, PartialEq, Eq, Debug)]
pub enum Unplaced {
    /// They have no order: the flows that remain when none may come last.
    NoOrder(FlowSet),
    /// They have no placing: the first flow in the order that finds too few slots, and the earlier flows that overlap it.
    NoPlacing(FlowSet),
}
