//! The calls that book flows and end bookings.
ghost use Rattle.std.specs.Prelude.{◌≡◌, ℕ, Bool, true, false, MatchResult};
ghost use Rattle.planner.specs.LinkSets.{crossing};
ghost use Rattle.planner.specs.Shown.{shows};
ghost use Rattle.planner.specs.Steps.{Step, Passes, RefusedBy, enrol_checks};
ghost use Rattle.planner.specs.declared.calls.Call.TheVariants.{Enrol, Admit, Withdraw};

use crate::bookings::Booking;
use crate::flow_numbers::FlowNumber;
use crate::flows::Flow;
use crate::link_sets::LinkSet;
use crate::plan_faults::PlanFault;
use crate::plans::Plan;
use crate::slot_requests::SlotRequest;
use crate::states::{Resting, Running};
use fabric::Fabric;

impl<F: Fabric> Plan<F, Resting> {
    /// Books a flow under a free number, waiting. Checked in this order: 4 the number, 5 and 13 the demand, between them
    /// 11 that the number is free and 12 that there is a route.
    pub fn enrol(&mut self, number: u16, flow: Flow) -> Result<(), PlanFault>
        ensures { Step (shows F.Fabric.meaning false self.old) (Enrol number flow) result (shows F.Fabric.meaning false self.new) }
    {
        let (free, booking) = self.may_book(number, flow)?;
        self.bookings.insert(free, booking);
        Ok(())
    }
}

impl<F: Fabric> Plan<F, Running> {
    /// Books a flow under a free number and gives it its earliest valid slots. Checked as an enrolment, and then 14
    /// that there are as many valid slots as it demands; they need not be in one run.
    pub fn admit(&mut self, number: u16, flow: Flow) -> Result<(), PlanFault>
        ensures { Step (shows F.Fabric.meaning true self.old) (Admit number flow) result (shows F.Fabric.meaning true self.new) }
    {
        let (number, booking) = self.may_book(number, flow)?;
        let beside = self.bookings.met_by(&booking.links);
        self.table.give(SlotRequest {
            flow: number,
            beside,
            demand: flow.demand,
            period: self.period.slots,
        })?;
        self.bookings.insert(number, booking);
        Ok(())
    }
}

impl<F: Fabric, S> Plan<F, S> {
    // The checks that every booking passes: the number and what is to be booked under it.
    fn may_book(&self, number: u16, flow: Flow) -> Result<(FlowNumber, Booking), PlanFault>
        ensures { MatchResult result
            (λ of. Passes (enrol_checks (shows F.Fabric.meaning false self.now) number flow) × (of.0.number ≡ number) × (of.1.flow ≡ flow)
            × ((link : ℕ) → crossing of.1.links link ≡ (F.Fabric.meaning self.now.fabric).crossed flow.ends link))
            (λ fault. RefusedBy (enrol_checks (shows F.Fabric.meaning false self.now) number flow) fault) }
    {
        let number = FlowNumber::new(number).ok_or(PlanFault::BadNumber)?;
        if flow.demand == 0 {
            return Err(PlanFault::NoDemand);
        }
        if self.bookings.get(number).is_some() {
            return Err(PlanFault::NumberTaken);
        }
        if !self.fabric.routed(flow.ends) {
            return Err(PlanFault::NoRoute);
        }
        if flow.demand > u16::from(self.period.slots) {
            return Err(PlanFault::DemandAbovePeriod);
        }
        let links = LinkSet::of_route(&self.fabric, flow.ends);
        Ok((number, Booking { flow, links }))
    }

    /// Ends the booking under a number; the number and its slots are free again. Checked in this order: 4 the number,
    /// 15 that a flow is booked under it.
    pub fn withdraw(&mut self, number: u16) -> Result<(), PlanFault>
        ensures { (running : Bool) → Step (shows F.Fabric.meaning running self.old) (Withdraw number) result (shows F.Fabric.meaning running self.new) }
    {
        let number = FlowNumber::new(number).ok_or(PlanFault::BadNumber)?;
        if self.bookings.get(number).is_none() {
            return Err(PlanFault::NotBooked);
        }
        self.table.clear(number);
        self.bookings.remove(number);
        Ok(())
    }
}
