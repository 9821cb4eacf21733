//! The whole of planning: the chosen order, and the placing along it.
ghost use Rattle.planner.specs.FlowSets.{members};
ghost use Rattle.planner.specs.Loads.{load_of};
ghost use Rattle.planner.specs.Planning.{Planned};

use crate::loads::FlowLoad;
use crate::orders::chosen_order;
use crate::slots::SlotTable;
use crate::unplaced::Unplaced;

impl FlowLoad {
    /// Places the flows along their chosen order, each in its earliest valid slots. Refused with the flows that remain, exactly
    /// when they have no order; if they have one, with flows that cannot be placed together, exactly when no placing exists.
    pub fn place(&self) -> Result<SlotTable, Unplaced>
        ensures { Planned (load_of self.now.overlaps self.now.demands self.now.period) (members self.now.flows) result }
    {
        let order = chosen_order(self.flows, &self.overlaps).map_err(Unplaced::NoOrder)?;
        self.place_along(order.as_slice())
            .map_err(Unplaced::NoPlacing)
    }
}
