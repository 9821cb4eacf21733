//! Which flows overlap which.
ghost use Rattle.std.specs.Prelude.{◌≡◌, ℕ, ◌<◌, false, ◌||◌, if◌then◌else◌, ◌==◌, ◌≢◌, nat_eq};
ghost use Rattle.planner.specs.FlowSets.{members};
ghost use Rattle.planner.specs.Groups.{overlapping, is_pair};

use crate::flow_numbers::FlowNumber;
use crate::flow_sets::{FlowSet, remove_from_all};

/// For each flow the group of the flows that overlap it. Overlap is mutual, and no flow overlaps itself.
// Clauses name the groups: the definitions under the laws are told of them, and a model would only give them another name.
#[derive(Clone, Copy, PartialEq, Eq, Debug)]
pub struct Overlaps {
    pub(crate) groups: [FlowSet; 64],
    ghost symmetric: { (f g : ℕ) → overlapping groups f g ≡ overlapping groups g f },
    ghost apart: { (f : ℕ) → overlapping groups f f ≡ false },
}

impl Overlaps {
    /// No flow overlaps another.
    pub fn none() -> Overlaps
        ensures { (f g : ℕ) → overlapping result.groups f g ≡ false }
    {
        let nobody = FlowSet::empty();
        Overlaps {
            groups: [nobody; 64],
        }
    }

    /// The flows that overlap a flow.
    pub(crate) fn group(&self, flow: FlowNumber) -> FlowSet
        ensures { (g : ℕ) → members result g ≡ overlapping self.now.groups flow.number g }
    {
        self.groups[usize::from(flow)]
    }

    /// Two flows overlap from now on.
    pub(crate) fn join(&mut self, one: FlowNumber, other: FlowNumber)
        requires { one.number ≢ other.number }
        ensures { (f g : ℕ) → overlapping self.new.groups f g ≡ (is_pair one.number other.number f g || overlapping self.old.groups f g) }
    {
        self.groups[usize::from(one)].insert(other);
        self.groups[usize::from(other)].insert(one);
    }

    /// A flow overlaps nothing from now on.
    pub(crate) fn part(&mut self, flow: FlowNumber)
        ensures { (f g : ℕ) → overlapping self.new.groups f g ≡ (if nat_eq f flow.number || g == flow.number then false else overlapping self.old.groups f g) }
    {
        remove_from_all(&mut self.groups, flow);
        self.groups[usize::from(flow)] = FlowSet::empty();
    }
}
