//! Orders of flows, as they are kept. The struct stands alone: definitions that contracts cite name it.
ghost use Rattle.std.specs.Prelude.{◌≤◌};

use crate::flow_numbers::FlowNumber;

/// Flows in an order, kept from its end: the flow that comes last stands at 0.
// Not compared or printed: the places past the count are unused, and what stands there would tell equal orders apart.
#[derive(Clone, Copy)]
pub struct FlowOrder {
    // An order is Copy, which an ArrayVec is not, so its flows are kept in an array with their count.
    pub(crate) flows: [FlowNumber; 64],
    pub(crate) count: u8,
    ghost few: { count ≤ 64 },
}
