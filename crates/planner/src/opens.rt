//! Opening a plan, and the calls that change its state or its fabric.
ghost use Rattle.std.specs.Prelude.{◌≡◌, ◌≤◌, Bool, true, false, [], Ok, MatchResult};
ghost use Rattle.fabric.specs.Spurs.{Judged, size_of, spur_of};
ghost use Rattle.planner.specs.PlanFaults.{numbered};
ghost use Rattle.planner.specs.Shown.{Opened, shows};
ghost use Rattle.planner.specs.Steps.{Step};
ghost use Rattle.planner.specs.declared.calls.Call.TheVariants.{Start, Rest, Fit};

use crate::bookings::Bookings;
use crate::periods::Period;
use crate::plan_faults::PlanFault;
use crate::plans::Plan;
use crate::slots::SlotTable;
use crate::states::{Resting, Running};
use fabric::Fabric;
use fabric::faults::FabricFault;
use fabric::modules::Module;
use fabric::spurs::{Spur, fits};
use std::marker::PhantomData;

impl Period {
    /// The period of so many slots, 1 to 255; another number is refused with 1.
    pub fn new(slots: u16) -> Result<Period, PlanFault>
        ensures { MatchResult result (λ period. period.slots ≡ slots) (λ fault. ((1 ≤ slots) × (slots ≤ 255) → ⊥) × (numbered fault ≡ (1, []))) }
    {
        // a match: after `filter` the closure of `map` does not know the test, so the proof that the period has a slot did not close
        match u8::try_from(slots) {
            Ok(slots @ 1..) => Ok(Period { slots }),
            _ => Err(PlanFault::BadPeriod),
        }
    }
}

impl<F: Fabric> Plan<F, Resting> {
    /// An empty plan at rest, over the fabric, with a period of that length.
    pub fn open(fabric: F, length: Period) -> Plan<F, Resting>
        ensures { (Opened (shows F.Fabric.meaning false result)) × ((result.fabric ≡ fabric) × (result.period ≡ length)) }
    {
        Plan {
            fabric,
            period: length,
            bookings: Bookings::none(),
            table: SlotTable::empty(),
            state: PhantomData,
        }
    }

    /// Sets the plan running.
    pub fn start(self) -> Plan<F, Running>
        ensures { Step (shows F.Fabric.meaning false self) Start (Ok tt) (shows F.Fabric.meaning true result) }
    {
        self.in_state::<Running>()
    }

    /// Whether the module may be fitted. It is refused with 2 if it is outside its limits, else with 18 if it does not
    /// fit the fabric.
    pub fn fits(&self, module: Module) -> Result<(), FabricFault>
        ensures { Judged (size_of (F.Fabric.meaning self.now.fabric)) «module» result }
    {
        fits(&self.fabric, module)
    }

    /// The plan over the fabric with the module, with the bookings and slots as before. A module that may not be
    /// fitted adds nothing.
    pub fn fit(self, module: Module) -> Plan<Spur<F>, Resting>
        ensures { Step (shows F.Fabric.meaning false self) (Fit «module») (Ok tt) (shows (spur_of F.Fabric.meaning) false result) }
    {
        let Plan {
            fabric,
            period,
            bookings,
            table,
            state,
        } = self;
        Plan {
            fabric: Spur::new(fabric, module),
            period,
            bookings,
            table,
            state,
        }
    }
}

impl<F: Fabric> Plan<F, Running> {
    /// Brings the plan to rest.
    pub fn rest(self) -> Plan<F, Resting>
        ensures { Step (shows F.Fabric.meaning true self) Rest (Ok tt) (shows F.Fabric.meaning false result) }
    {
        self.in_state::<Resting>()
    }
}

impl<F: Fabric, S> Plan<F, S> {
    // The same plan in another state. Its type is another, so it is taken apart and made anew: `..self` gives the same type.
    fn in_state<T>(self) -> Plan<F, T>
        ensures { (result.fabric ≡ self.fabric) × (result.period ≡ self.period) × (result.bookings ≡ self.bookings) × (result.table ≡ self.table) }
    {
        let Plan {
            fabric,
            period,
            bookings,
            table,
            state: _,
        } = self;
        Plan {
            fabric,
            period,
            bookings,
            table,
            state: PhantomData,
        }
    }
}
