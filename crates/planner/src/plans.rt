//! Plans, as they are kept. The struct stands alone: definitions that contracts cite name it.
ghost use Rattle.std.specs.Prelude.{◌≡◌, ℕ, ◌<◌, true, is_some};
ghost use Rattle.planner.specs.Bookings.{booking_at};
ghost use Rattle.planner.specs.Tables.{holds};

use crate::bookings::Bookings;
use crate::periods::Period;
use crate::slots::SlotTable;
use std::marker::PhantomData;

/// A plan over a fabric, in a state: which flows are booked, and which slots of the period each holds.
#[derive(Drop)]
pub struct Plan<F, S> {
    pub(crate) fabric: F,
    pub(crate) period: Period,
    pub(crate) bookings: Bookings,
    pub(crate) table: SlotTable,
    pub(crate) state: PhantomData<S>,
    // only booked flows hold slots, and only slots of the period
    ghost owned: { (n s : ℕ) → holds table n s ≡ true → is_some (booking_at bookings n) ≡ true },
    ghost within: { (n s : ℕ) → holds table n s ≡ true → s < period.slots },
}
