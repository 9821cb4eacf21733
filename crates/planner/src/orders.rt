//! Orders of flows, chosen from their end.
ghost use Rattle.std.specs.Prelude.{◌≡◌, ℕ, ◌+◌, ◌<◌, ◌≤◌, true, [], ◌∷◌, ◌++◌, length, Decides, MatchOption, ◌≢◌, slice_index};
ghost use Rattle.planner.specs.FlowOrders.{numbers, listed, ComesTo};
ghost use Rattle.planner.specs.FlowSets.{members};
ghost use Rattle.planner.specs.Groups.{overlapping};
ghost use Rattle.planner.specs.Orders.{MayComeLast, ChosenLast};

use crate::flow_numbers::FlowNumber;
use crate::flow_orders::FlowOrder;
use crate::flow_sets::FlowSet;
use crate::overlaps::Overlaps;

impl FlowOrder {
    fn empty() -> FlowOrder
        ensures { (listed result ≡ []) × (result.count ≡ 0) }
    {
        FlowOrder {
            flows: [FlowNumber { number: 0 }; 64],
            count: 0,
        }
    }

    /// Puts a flow before those that the order has.
    fn put_first(&mut self, flow: FlowNumber)
        requires { self.old.count < 64 }
        ensures { (listed self.new ≡ listed self.old ++ flow.number ∷ []) × (self.new.count ≡ self.old.count + 1) }
    {
        self.flows[usize::from(self.count)] = flow;
        self.count += 1;
    }

    /// How many flows the order has.
    pub fn len(&self) -> usize
        ensures { result ≡ length (listed self.now) }
    {
        usize::from(self.count)
    }

    /// The flows of the order, the last at the front.
    pub(crate) fn as_slice(&self) -> &[FlowNumber]
        ensures { numbers result.now ≡ listed self.now }
    {
        &self.flows[..self.len()]
    }

    /// The flow at a place, counted from the end of the order: the one that comes last is at 0. None past the first.
    pub fn from_end(&self, place: usize) -> Option<u8>
        ensures { MatchOption result (length (listed self.now) ≤ place) (λ f. (place < length (listed self.now)) × (f ≡ slice_index (listed self.now) place)) }
    {
        self.as_slice().get(place).map(|flow| flow.get())
    }
}

/// Whether the flow overlaps each other flow of the group.
fn overlaps_rest(flow: FlowNumber, group: FlowSet, overlaps: &Overlaps) -> bool
    ensures { Decides result ((g : ℕ) → members group g ≡ true → (flow.number ≢ g) → overlapping overlaps.now.groups flow.number g ≡ true) }
{
    let mut others = group;
    others.remove(flow);
    others.subset(overlaps.group(flow))
}

/// The flow that comes last: the highest that may. A flow may come last if the flows that overlap it all overlap, which
/// is asked of each of them by one step over a whole group.
pub(crate) fn last_of(flows: FlowSet, overlaps: &Overlaps) -> Option<FlowNumber>
    ensures { MatchOption result ((f : ℕ) → MayComeLast (overlapping overlaps.now.groups) (members flows) f → ⊥) (λ flow. ChosenLast (overlapping overlaps.now.groups) (members flows) flow.number) }
{
    let mut candidates = flows;
    // the rule by which an order is chosen: from the highest number down, left at the first flow that may come last
    'search: loop {
        let flow = candidates.take_highest()?;
        let beside = overlaps.group(flow).intersection(flows);
        let mut others = beside;
        while let Some(other) = others.take_highest() {
            if !overlaps_rest(other, beside, overlaps) {
                continue 'search;
            }
        }
        break 'search Some(flow);
    }
}

/// The order of the flows that is chosen from its end: the flow that comes last is put aside, and the same is
/// done with the rest. Where no flow of the rest may come last there is no order at all, and the rest is given.
pub fn chosen_order(flows: FlowSet, overlaps: &Overlaps) -> Result<FlowOrder, FlowSet>
    ensures { ComesTo (overlapping overlaps.now.groups) (members flows) result }
{
    let mut order = FlowOrder::empty();
    let mut rest = flows;
    while let Some(flow) = last_of(rest, overlaps) {
        order.put_first(flow);
        rest.remove(flow);
    }
    if rest.is_empty() {
        Ok(order)
    } else {
        Err(rest)
    }
}

#[cfg(test)]
mod tests {
    use super::*;
    use std::process::Abort;
    use std::test::Fail;

    // What is chosen of so many flows, of which the pairs overlap.
    fn choice(count: u8, pairs: &[(u8, u8)]) -> Result<FlowOrder, FlowSet> {
        let mut overlaps = Overlaps::none();
        for (one, other) in pairs {
            if let Some(one) = FlowNumber::new(u16::from(*one))
                && let Some(other) = FlowNumber::new(u16::from(*other))
                && one != other
            {
                overlaps.join(one, other);
            }
        }
        let mut flows = FlowSet::empty();
        for flow in (0..u16::from(count)).map_while(FlowNumber::new) {
            flows.insert(flow);
        }
        chosen_order(flows, &overlaps)
    }

    fn gives(rt: &impl Abort, count: u8, pairs: &[(u8, u8)], expected: &[u8]) -> Result<(), Fail> {
        let Ok(order) = choice(count, pairs) else {
            return Err(Fail::new("no order"));
        };
        assert_eq!(rt; order.len(), expected.len());
        for (place, flow) in expected.iter().enumerate() {
            assert_eq!(rt; order.from_end(place), Some(*flow));
        }
        assert_eq!(rt; order.from_end(expected.len()), None);
        Ok(())
    }

    fn leaves(rt: &impl Abort, count: u8, pairs: &[(u8, u8)], expected: u64) -> Result<(), Fail> {
        let Err(group) = choice(count, pairs) else {
            return Err(Fail::new("an order"));
        };
        assert_eq!(rt; group.bits(), expected);
        Ok(())
    }

    #[test]
    fn orders(rt: HostRuntime) -> Result<(), Fail> {
        gives(&rt, 0, &[], &[])?;
        gives(&rt, 3, &[(0, 1), (1, 2), (0, 2)], &[2, 1, 0])?;
        gives(&rt, 4, &[(0, 1), (1, 2), (2, 3)], &[3, 2, 1, 0])?;
        // a path 0-3-1-2: flow 3 has two neighbours that do not overlap, until flow 1 is put aside
        gives(&rt, 4, &[(0, 3), (3, 1), (1, 2)], &[2, 1, 3, 0])
    }

    #[test]
    fn rings(rt: HostRuntime) -> Result<(), Fail> {
        leaves(&rt, 4, &[(0, 1), (1, 2), (2, 3), (3, 0)], 0b1111)?;
        // flow 4 beside the ring is put aside, and the ring remains
        leaves(&rt, 5, &[(0, 1), (1, 2), (2, 3), (3, 0), (4, 0)], 0b1111)
    }
}
