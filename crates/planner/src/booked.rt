//! What the bookings of a plan say together: which flows are booked, what they demand, which of them overlap.
ghost use Rattle.std.specs.Prelude.{◌≡◌, ℕ, ◌<◌, ◌≤◌, false, None, Some, ◌==◌, cond, is_some, slice_index};
ghost use Rattle.planner.specs.Bookings.{booking_at, booked_flow, kept_route, demand_of, overlap_of};
ghost use Rattle.planner.specs.FlowSets.{members};
ghost use Rattle.planner.specs.Groups.{overlapping};
ghost use Rattle.planner.specs.LinkSets.{crossing, share};

use crate::bookings::{Booking, Bookings};
use crate::flow_numbers::FlowNumber;
use crate::flow_sets::FlowSet;
use crate::link_sets::LinkSet;
use crate::overlaps::Overlaps;
use std::array;

impl Bookings {
    /// Nothing is booked.
    pub(crate) fn none() -> Bookings
        ensures { (n : ℕ) → booking_at result n ≡ None }
    {
        Bookings {
            entries: [None; 64],
        }
    }

    /// What is booked under a number.
    pub(crate) fn get(&self, number: FlowNumber) -> Option<Booking>
        ensures { result ≡ booking_at self.now number.number }
    {
        self.entries[usize::from(number)]
    }

    /// Books a flow under a number.
    pub(crate) fn insert(&mut self, number: FlowNumber, booking: Booking)
        ensures { (n : ℕ) → booking_at self.new n ≡ cond (n == number.number) (Some booking) (booking_at self.old n) }
    {
        self.entries[usize::from(number)] = Some(booking);
    }

    /// Ends the booking under a number.
    pub(crate) fn remove(&mut self, number: FlowNumber)
        ensures { (n : ℕ) → booking_at self.new n ≡ cond (n == number.number) None (booking_at self.old n) }
    {
        self.entries[usize::from(number)] = None;
    }

    /// The booked flows.
    pub(crate) fn flows(&self) -> FlowSet
        ensures { (n : ℕ) → members result n ≡ is_some (booking_at self.now n) }
    {
        flows_that(|number| self.get(number).is_some())
    }

    /// The demands of the booked flows, by number.
    pub(crate) fn demands(&self) -> [u16; 64]
        ensures { (n : ℕ) → slice_index result n ≡ demand_of (booked_flow (booking_at self.now n)) }
    {
        // asked one by one, as `map` would move all that is booked
        array::from_fn(
            |n|
                requires { n < 64 }
                ensures { result ≡ demand_of (booked_flow (booking_at self.entry.now n)) }
            { self.entries[n].map_or(0, |booking| booking.flow.demand) },
        )
    }

    // Whether a flow is booked under the number whose route shares a link with the one of these links.
    fn meets(&self, number: FlowNumber, links: &LinkSet) -> bool
        ensures { result ≡ share (crossing links.now) (kept_route (booking_at self.now number.number)) }
    {
        self.get(number)
            .is_some_and(|booking| links.meets(&booking.links))
    }

    /// The booked flows whose routes share a link with the one of these links.
    pub(crate) fn met_by(&self, links: &LinkSet) -> FlowSet
        ensures { (n : ℕ) → members result n ≡ share (crossing links.now) (kept_route (booking_at self.now n)) }
    {
        flows_that(|number| self.meets(number, links))
    }

    // The booked flows that overlap the one of this number.
    fn beside(&self, number: FlowNumber) -> FlowSet
        ensures { (n : ℕ) → members result n ≡ overlap_of (λ k. kept_route (booking_at self.now k)) number.number n }
    {
        let Some(booking) = self.get(number) else {
            return FlowSet::empty();
        };
        let mut group = self.met_by(&booking.links);
        group.remove(number);
        group
    }

    /// Which of the booked flows overlap.
    pub(crate) fn overlaps(&self) -> Overlaps
        ensures { (f g : ℕ) → overlapping result.groups f g ≡ overlap_of (λ n. kept_route (booking_at self.now n)) f g }
    {
        // the array asks for numbers below 64 alone, so the cast loses nothing
        let groups = array::from_fn(
            |n|
                requires { n < 64 }
                ensures { (g : ℕ) → members result g ≡ overlap_of (λ k. kept_route (booking_at self.entry.now k)) n g }
            { self.beside(FlowNumber { number: n as u8 }) },
        );
        Overlaps { groups }
    }
}

// The flows that pass a test.
fn flows_that<T: Fn(FlowNumber) -> bool>(test: T) -> FlowSet
    requires { T.IsAlwaysCallable test }
    ensures passed { (n : ℕ) → n < 64 → (flow : FlowNumber) × (flow.number ≡ n) × T.post test flow (members result n) }
    ensures others { (n : ℕ) → 64 ≤ n → members result n ≡ false }
{
    let mut flows = FlowSet::empty();
    // by number: tried `(0..64).map_while(FlowNumber::new)`, whose loop the check does not admit beside a test of any type
    for number in 0..64 {
        let flow = FlowNumber { number };
        if test(flow) {
            flows.insert(flow);
        }
    }
    flows
}
