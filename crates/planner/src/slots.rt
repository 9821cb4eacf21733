//! The table of slots: which flow holds which slot. Contracts speak only of what a flow holds.
ghost use Rattle.std.specs.Prelude.{◌≡◌, ℕ, ◌<◌, ◌≤◌, false, if◌then◌else◌, nat_eq, MatchResult};
ghost use Rattle.planner.specs.FlowSets.{members};
ghost use Rattle.planner.specs.Slots.{count, free, Given};
ghost use Rattle.planner.specs.Tables.{holds};

use crate::flow_numbers::FlowNumber;
use crate::flow_sets::{FlowSet, remove_from_all};
use crate::slot_requests::{SlotRequest, TooFew};

/// For each slot the flows that hold it, so that one AND tells whether a slot is valid.
#[derive(Clone, Copy, PartialEq, Eq, Debug)]
pub struct SlotTable {
    // a row for each slot of the longest period, since the planner allocates nothing
    slots: [FlowSet; 255],
}

impl SlotTable {
    /// No flow holds a slot.
    pub fn empty() -> SlotTable
        ensures { (f s : ℕ) → holds result f s ≡ false }
    {
        let nobody = FlowSet::empty();
        SlotTable {
            slots: [nobody; 255],
        }
    }

    /// Whether a flow holds a slot; false past the last flow and the last slot.
    pub fn holds_slot(&self, flow: u16, slot: u16) -> bool
        ensures { result ≡ holds self.now flow slot }
    {
        self.slots
            .get(usize::from(slot))
            .is_some_and(|flows| flows.contains_flow(flow))
    }

    /// The flow gives up all its slots.
    pub(crate) fn clear(&mut self, flow: FlowNumber)
        ensures { (f s : ℕ) → holds self.new f s ≡ (if nat_eq f flow.number then false else holds self.old f s) }
    {
        remove_from_all(&mut self.slots, flow);
    }

    /// How many slots of the period no flow of `beside` holds.
    fn valid_count(&self, beside: FlowSet, period: u8) -> usize
        ensures { result ≡ count (free (holds self.now) 64 (members beside)) period }
    {
        // a `for`, which the compiler runs over several slots at a time: of `filter` and `count` it made two loops that go slot by
        // slot, and a re-plan counts the whole period for each flow
        let mut valid = 0;
        for flows in &self.slots[..usize::from(period)] {
            if !flows.intersects(beside) {
                valid += 1;
            }
        }
        valid
    }

    /// Gives the flow its earliest valid slots, as many as it demands. Refused where there are too few, and then nothing changes.
    pub(crate) fn give(&mut self, request: SlotRequest) -> Result<(), TooFew>
        requires { (s : ℕ) → holds self.old request.flow.number s ≡ false }
        ensures { MatchResult result
            (λ _. Given (holds self.old) (holds self.new) 64 request.flow.number (members request.beside) request.demand request.period)
            (λ _. (self.new ≡ self.old) × (count (free (holds self.old) 64 (members request.beside)) request.period < request.demand)) }
    {
        if self.valid_count(request.beside, request.period) < usize::from(request.demand) {
            return Err(TooFew);
        }
        self.take_earliest(request);
        Ok(())
    }

    /// The giving pass, which stops once the demand is met.
    fn take_earliest(&mut self, request: SlotRequest)
        requires holds_nothing { (s : ℕ) → holds self.old request.flow.number s ≡ false }
        requires enough { request.demand ≤ count (free (holds self.old) 64 (members request.beside)) request.period }
        ensures { Given (holds self.old) (holds self.new) 64 request.flow.number (members request.beside) request.demand request.period }
    {
        let mut left = request.demand;
        for flows in self.slots[..usize::from(request.period)].iter_mut() {
            if left == 0 {
                break;
            }
            if !flows.intersects(request.beside) {
                flows.insert(request.flow);
                left -= 1;
            }
        }
    }
}
