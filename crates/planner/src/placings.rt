//! Placing flows along an order.
ghost use Rattle.planner.specs.FlowOrders.{numbers};
ghost use Rattle.planner.specs.Loads.{load_of};
ghost use Rattle.planner.specs.Placings.{Once, Outcome, Verdict};

use crate::flow_numbers::FlowNumber;
use crate::flow_sets::FlowSet;
use crate::loads::FlowLoad;
use crate::slot_requests::SlotRequest;
use crate::slots::SlotTable;

impl FlowLoad {
    /// Places the flows of a list, from its end to its front, each in the earliest slots that no flow before it that overlaps it
    /// holds. Where a flow finds too few it stops, with the group of that flow and the flows before it that overlap it.
    ///
    /// Along an order the table is a placing; and where it stops, the group's flows all overlap one another, together they demand
    /// more than the period, and no placing exists.
    pub(crate) fn place_along(&self, order: &[FlowNumber]) -> Result<SlotTable, FlowSet>
        requires { Once (numbers order.now) }
        ensures outcome { Outcome (load_of self.now.overlaps self.now.demands self.now.period) (numbers order.now) result }
        ensures verdict { Verdict (load_of self.now.overlaps self.now.demands self.now.period) (numbers order.now) result }
    {
        let mut table = SlotTable::empty();
        let mut placed = FlowSet::empty();
        for flow in order.iter().rev().copied() {
            let rivals = placed.intersection(self.overlaps.group(flow));
            table
                .give(SlotRequest {
                    flow,
                    beside: rivals,
                    demand: self.demands[usize::from(flow)],
                    period: self.period,
                })
                .map_err(|_| rivals.with(flow))?;
            placed.insert(flow);
        }
        Ok(table)
    }
}

#[cfg(test)]
mod tests {
    use super::*;
    use crate::overlaps::Overlaps;
    use std::test::Fail;

    // Eleven flows, numbered from 1. Bit k of an entry: the flow crosses link k, and two flows overlap if they share a link.
    const CROSSES: [u8; 12] = [
        0,
        0b110,
        0b10,
        0b1010_0010,
        0b1_1010,
        0b100,
        0b1000,
        0b1_0000,
        0b1010_0000,
        0b110_0000,
        0b100_0000,
        0b1000_0000,
    ];

    const DEMANDS: [u16; 12] = [0, 2, 2, 3, 1, 6, 7, 7, 1, 4, 4, 4];

    // written out: of the numbers under `map` it is not proved that each is below 64 and that none stands twice
    const ORDER: [FlowNumber; 11] = [
        FlowNumber { number: 11 },
        FlowNumber { number: 10 },
        FlowNumber { number: 9 },
        FlowNumber { number: 8 },
        FlowNumber { number: 7 },
        FlowNumber { number: 6 },
        FlowNumber { number: 5 },
        FlowNumber { number: 4 },
        FlowNumber { number: 3 },
        FlowNumber { number: 2 },
        FlowNumber { number: 1 },
    ];

    // Bit s of an entry: the flow holds slot s.
    const HELD: [u8; 12] = [
        0,
        0b11,
        0b1100,
        0b111_0000,
        0b1000_0000,
        0b1111_1100,
        0b111_1111,
        0b111_1111,
        0b1,
        0b1000_1110,
        0b111_0001,
        0b1000_1110,
    ];

    fn eleven_overlaps() -> Overlaps {
        let mut overlaps = Overlaps::none();
        // two flows at a time, each asked for by its number
        for one in 1..12u8 {
            for other in 1..one {
                if CROSSES[usize::from(one)] & CROSSES[usize::from(other)] != 0 {
                    overlaps.join(FlowNumber { number: one }, FlowNumber { number: other });
                }
            }
        }
        overlaps
    }

    // The placing of the eleven flows in a period of eight slots, with a demand of its own for flow 2.
    fn placed(second: u16) -> Result<SlotTable, FlowSet> {
        let mut demands = [0u16; 64];
        demands[..12].copy_from_slice(&DEMANDS);
        demands[2] = second;
        let load = FlowLoad {
            flows: FlowSet::empty(),
            overlaps: eleven_overlaps(),
            demands,
            period: 8,
        };
        load.place_along(&ORDER)
    }

    #[test]
    fn eleven_flows_are_placed(rt: HostRuntime) -> Result<(), Fail> {
        let Ok(table) = placed(2) else {
            return Err(Fail::new("the flows have a placing"));
        };
        for (flow, held) in (0..12u16).zip(HELD) {
            for slot in 0..8u16 {
                assert_eq!(rt; table.holds_slot(flow, slot), (held >> slot) & 1 == 1);
            }
        }
        Ok(())
    }

    #[test]
    fn a_short_flow_is_told_with_its_group(rt: HostRuntime) -> Result<(), Fail> {
        let Err(group) = placed(3) else {
            return Err(Fail::new("the first four demand nine slots of eight"));
        };
        for flow in 0..64u16 {
            assert_eq!(rt; group.contains_flow(flow), (1..=4).contains(&flow));
        }
        Ok(())
    }
}
