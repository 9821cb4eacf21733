//! Sets of flows, numbered 0 to 63, one bit each. Contracts speak only of which flows are members.
ghost use Rattle.std.specs.Prelude.{◌≡◌, ℕ, ◌<◌, true, false, not, ◌&&◌, Decides, if◌then◌else◌, MatchOption, nat_eq, slice_index_or};
ghost use Rattle.planner.specs.FlowSets.{bit, members};

use crate::flow_numbers::FlowNumber;

/// A set of flows, also called a group: a 64-bit number whose bit n stands for flow n.
#[derive(Clone, Copy, PartialEq, Eq, Debug)]
pub struct FlowSet(u64);

impl FlowSet {
    /// No flow.
    pub fn empty() -> FlowSet
        ensures { (k : ℕ) → members result k ≡ false }
    {
        FlowSet(0)
    }

    pub(crate) fn contains(self, flow: FlowNumber) -> bool
        ensures { result ≡ members self flow.number }
    {
        (self.0 >> flow.number) & 1 == 1
    }

    /// Whether the flow of this number is in the set; no for a number that no flow has.
    pub fn contains_flow(self, number: u16) -> bool
        ensures { result ≡ members self number }
    {
        // no option between: a number that is no flow's would still be made one, and shifted by, before it is turned away
        number < 64
            && self.contains(FlowNumber {
                number: number as u8,
            })
    }

    pub(crate) fn insert(&mut self, flow: FlowNumber)
        ensures { (k : ℕ) → members self.new k ≡ (if nat_eq k flow.number then true else members self.old k) }
    {
        self.0 |= 1u64 << flow.number;
    }

    pub(crate) fn remove(&mut self, flow: FlowNumber)
        ensures { (k : ℕ) → members self.new k ≡ (if nat_eq k flow.number then false else members self.old k) }
    {
        // read first: after `&=` alone the proof did not close, since that the number is one of 64 bits is known of what is read
        let flows = self.0;
        self.0 = flows & !(1u64 << flow.number);
    }

    /// Takes the highest flow out of the set; None from the empty set, which stays empty.
    pub(crate) fn take_highest(&mut self) -> Option<FlowNumber>
        ensures { MatchOption result (((k : ℕ) → members self.old k ≡ false) × (self.new ≡ self.old)) (λ flow. (members self.old flow.number ≡ true) × ((k : ℕ) → flow.number < k → members self.old k ≡ false) × ((k : ℕ) → members self.new k ≡ (if nat_eq k flow.number then false else members self.old k))) }
    {
        if self.0 == 0 {
            return None;
        }
        let highest = FlowNumber {
            // at most 63, which a u8 holds
            number: (63 - self.0.leading_zeros()) as u8,
        };
        self.remove(highest);
        Some(highest)
    }

    /// The set, and the flow.
    pub(crate) fn with(mut self, flow: FlowNumber) -> FlowSet
        ensures { (k : ℕ) → members result k ≡ (if nat_eq k flow.number then true else members self k) }
    {
        self.insert(flow);
        self
    }

    pub(crate) fn intersects(self, other: FlowSet) -> bool
        ensures { Decides result ((k : ℕ) × (k < 64) × (members self k ≡ true) × (members other k ≡ true)) }
    {
        meet(self.0, other.0)
    }

    /// The flows that are in both sets.
    pub(crate) fn intersection(self, other: FlowSet) -> FlowSet
        ensures { (k : ℕ) → members result k ≡ (members self k && members other k) }
    {
        FlowSet(self.0 & other.0)
    }

    /// The flows that are not in the other set.
    pub(crate) fn difference(self, other: FlowSet) -> FlowSet
        ensures { (k : ℕ) → members result k ≡ (members self k && not (members other k)) }
    {
        FlowSet(self.0 & !other.0)
    }

    pub(crate) fn is_empty(self) -> bool
        ensures { Decides result ((k : ℕ) → members self k ≡ false) }
    {
        self.0 == 0
    }

    pub(crate) fn subset(self, other: FlowSet) -> bool
        ensures { Decides result ((k : ℕ) → members self k ≡ true → members other k ≡ true) }
    {
        self.0 & !other.0 == 0
    }

    /// The set as a number: bit k is 1 exactly for a member k.
    pub fn bits(self) -> u64
        ensures { (k : ℕ) → bit result k ≡ members self k }
    {
        self.0
    }
}

/// Whether two words have a bit in common.
pub(crate) fn meet(mine: u64, theirs: u64) -> bool
    ensures { Decides result ((n : ℕ) × (n < 64) × (bit mine n ≡ true) × (bit theirs n ≡ true)) }
{
    mine & theirs != 0
}

/// Takes a flow out of every one of the sets.
pub(crate) fn remove_from_all(sets: &mut [FlowSet], flow: FlowNumber)
    ensures { (i k : ℕ) → members (slice_index_or sets.new i (record { 0 = 0 })) k ≡ (if nat_eq k flow.number then false else members (slice_index_or sets.old i (record { 0 = 0 })) k) }
{
    for set in sets.iter_mut() {
        set.remove(flow);
    }
}
