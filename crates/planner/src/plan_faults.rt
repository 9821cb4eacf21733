//! Why a plan refuses a call.
ghost use Rattle.std.specs.Prelude.{◌≡◌};
ghost use Rattle.planner.specs.PlanFaults.{numbered, fault_of};
ghost use Rattle.planner.specs.declared.plan_faults.PlanFault.TheVariants.{TooFewSlots};

use crate::flow_sets::FlowSet;
use crate::slot_requests::TooFew;
use crate::unplaced::Unplaced;

#[derive(Clone, Copy, PartialEq, Eq, Debug)]
pub enum PlanFault {
    /// 1: the period is not 1 to 255 slots.
    BadPeriod,
    /// 4: the flow number is above 63.
    BadNumber,
    /// 5: the flow demands no slot.
    NoDemand,
    /// 11: the number is taken.
    NumberTaken,
    /// 12: the flow has no route.
    NoRoute,
    /// 13: the flow demands more slots than the period has.
    DemandAbovePeriod,
    /// 14: fewer slots are valid for the flow than it demands.
    TooFewSlots,
    /// 15: no flow is booked under the number.
    NotBooked,
    /// 16: the booked flows have no order; with the flows that remain when none may come last.
    NoOrder(FlowSet),
    /// 17: the booked flows have no placing; with the first flow in the order that finds too few slots and the
    /// earlier flows that overlap it.
    NoPlacing(FlowSet),
}

impl PlanFault {
    /// The number by which the refusal is known.
    pub fn number(self) -> u8
        ensures { result ≡ (numbered self).0 }
    {
        match self {
            PlanFault::BadPeriod => 1,
            PlanFault::BadNumber => 4,
            PlanFault::NoDemand => 5,
            PlanFault::NumberTaken => 11,
            PlanFault::NoRoute => 12,
            PlanFault::DemandAbovePeriod => 13,
            PlanFault::TooFewSlots => 14,
            PlanFault::NotBooked => 15,
            PlanFault::NoOrder(_) => 16,
            PlanFault::NoPlacing(_) => 17,
        }
    }
}

// By hand, here and below, since contracts name the fault that a `?` makes, which `from_gives` tells them.
/// The refusal of a plan whose flows are not placed.
impl From<Unplaced> for PlanFault {
    ghost from_gives = { λ unplaced fault. fault ≡ fault_of unplaced };

    fn from(unplaced: Unplaced) -> PlanFault {
        match unplaced {
            Unplaced::NoOrder(group) => PlanFault::NoOrder(group),
            Unplaced::NoPlacing(group) => PlanFault::NoPlacing(group),
        }
    }
}

/// The refusal of a flow for which too few slots are valid.
impl From<TooFew> for PlanFault {
    ghost from_gives = { λ _ fault. fault ≡ TooFewSlots };

    fn from(_few: TooFew) -> PlanFault {
        PlanFault::TooFewSlots
    }
}
