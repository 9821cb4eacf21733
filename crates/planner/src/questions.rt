//! The questions that a plan answers, whatever its state. Numbers out of range and flows that are not booked are answered nobody, no or 0.
ghost use Rattle.std.specs.Prelude.{◌≡◌, ℕ, ◌-◌, ◌<◌, max, true, false, Decides, MatchOption};
ghost use Rattle.planner.specs.Bookings.{booked_numbered, demand_of};
ghost use Rattle.planner.specs.Questions.{Sends, Wait};
ghost use Rattle.planner.specs.Shown.{Shown, shows};

use crate::flow_numbers::FlowNumber;
use crate::flows::Flow;
use crate::plans::Plan;
use fabric::Fabric;
use fabric::pairs::Pair;

/// What a plan can be asked, known by four answers: the others follow from them. They are those of what the plan shows.
pub trait Questions {
    ghost shown: { Self → Shown };

    /// How many slots the period has.
    fn period(&self) -> u8
        ensures { result ≡ (shown self.now).period };

    /// The flow that is booked under a number.
    fn flow(&self, number: u16) -> Option<Flow>
        ensures { result ≡ (shown self.now).booked number };

    /// Whether the flow of this number holds the slot.
    fn holds(&self, number: u16, slot: u16) -> bool
        ensures { result ≡ (shown self.now).holds number slot };

    /// Whether the pair's route on the plan's fabric crosses the link; no without a route.
    fn crosses(&self, pair: Pair, link: u16) -> bool
        ensures { result ≡ (shown self.now).meaning.crossed pair link };

    /// The demand of the flow of this number.
    fn demand(&self, number: u16) -> u16
        ensures { result ≡ demand_of ((shown self.now).booked number) }
    {
        self.flow(number).map_or(0, |flow| flow.demand)
    }

    /// The wait of the flow of this number: the greatest distance from one of its slots to the next within the period,
    /// 0 for one slot or none.
    fn wait(&self, number: u16) -> u8
        ensures { Wait ((shown self.now).holds number) (shown self.now).period result }
    {
        // a loop that carries the last slot on: the slots beside themselves with `skip(1)` would ask the plan of each slot twice
        let mut wait = 0;
        let mut last = None;
        for slot in 0..self.period() {
            if self.holds(number, u16::from(slot)) {
                wait = longer(wait, last, slot);
                last = Some(slot);
            }
        }
        wait
    }

    /// Whether the flow of this number sends on the link in the slot. The fabric is asked, so that the answer is that of
    /// the flow's route on it.
    fn sends(&self, number: u16, link: u16, slot: u16) -> bool
        ensures { Decides result (Sends (shown self.now) number link slot) }
    {
        self.holds(number, slot)
            && self
                .flow(number)
                .is_some_and(|flow| self.crosses(flow.ends, link))
    }

    /// The flow that sends on the link in the slot, or nobody.
    fn sender(&self, link: u16, slot: u16) -> Option<u8>
        ensures { MatchOption result
            ((n : ℕ) → Sends (shown self.now) n link slot → ⊥)
            (λ n. Sends (shown self.now) n link slot × ((k : ℕ) → k < n → Sends (shown self.now) k link slot → ⊥)) }
    {
        (0..64).find(|number| self.sends(u16::from(*number), link, slot))
    }

    // only flows of numbers below 64 hold slots
    ghost numbered: { (plan : Self) (n slot : ℕ) → (shown plan).holds n slot ≡ true → n < 64 };
}

impl<F: Fabric, S> Questions for Plan<F, S> {
    // no answer depends on the state, so each is that of the plan running or not
    ghost shown = { λ plan. shows F.Fabric.meaning false plan };

    ghost numbered = { λ plan n slot held. booked_numbered plan.bookings n (plan.owned n slot held) };

    fn period(&self) -> u8 {
        self.period.slots
    }

    fn flow(&self, number: u16) -> Option<Flow> {
        let booking = self.bookings.get(FlowNumber::new(number)?)?;
        Some(booking.flow)
    }

    fn holds(&self, number: u16, slot: u16) -> bool {
        self.table.holds_slot(number, slot)
    }

    fn crosses(&self, pair: Pair, link: u16) -> bool {
        self.fabric.crosses(pair, link)
    }
}

// The longer of a wait and the distance to a slot from the last one, if there was one.
fn longer(wait: u8, last: Option<u8>, slot: u8) -> u8
    ensures { MatchOption last (result ≡ wait) (λ before. result ≡ max wait (slot - before)) }
{
    last.map_or(wait, |before| wait.max(slot.saturating_sub(before)))
}
