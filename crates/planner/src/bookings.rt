//! Bookings, as they are kept. The structs stand alone: definitions that contracts cite name them.
ghost use Rattle.std.specs.Prelude.{◌≡◌, length};

use crate::flows::Flow;
use crate::link_sets::LinkSet;

/// A flow that is booked, with the links of its route, which were asked of the fabric once.
#[derive(Clone, Copy, PartialEq, Eq, Debug)]
pub struct Booking {
    pub(crate) flow: Flow,
    pub(crate) links: LinkSet,
}

/// What is booked under each number.
#[derive(Clone, Copy, PartialEq, Eq, Debug)]
pub struct Bookings {
    // a place for each number, since the planner allocates nothing
    pub(crate) entries: [Option<Booking>; 64],
    ghost sized: { length entries ≡ 64 },
}
