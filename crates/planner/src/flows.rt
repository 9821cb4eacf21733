//! Flows: what a plan books.
use fabric::pairs::Pair;

/// A flow sends from one terminal to another, and demands so many slots of each period.
/// Any numbers make a flow; whether it may be booked is the plan's to say.
#[derive(Clone, Copy, PartialEq, Eq, Debug)]
pub struct Flow {
    pub ends: Pair,
    pub demand: u16,
}
