//! Re-planning: every booked flow is placed anew.
ghost use Rattle.std.specs.Prelude.{Bool, false};
ghost use Rattle.planner.specs.Shown.{shows};
ghost use Rattle.planner.specs.Steps.{Step};
ghost use Rattle.planner.specs.declared.calls.Call.TheVariants.{Replan};

use crate::loads::FlowLoad;
use crate::plan_faults::PlanFault;
use crate::plans::Plan;
use crate::states::Resting;
use fabric::Fabric;

impl<F: Fabric> Plan<F, Resting> {
    /// Drops all slots held and gives each flow, in the chosen order, its earliest valid slots. Refused with 16 if the
    /// flows have no order, else with 17 if they have no placing.
    pub fn replan(&mut self) -> Result<(), PlanFault>
        ensures { Step (shows F.Fabric.meaning false self.old) Replan result (shows F.Fabric.meaning false self.new) }
    {
        let load = FlowLoad {
            flows: self.bookings.flows(),
            overlaps: self.bookings.overlaps(),
            demands: self.bookings.demands(),
            period: self.period.slots,
        };
        self.table = load.place()?;
        Ok(())
    }
}
