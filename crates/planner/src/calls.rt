//! The calls on a plan, as values.
use crate::flows::Flow;
use fabric::modules::Module;

#[derive(Clone, Copy, PartialEq, Eq, Debug)]
pub enum Call {
    /// Books a flow under a number, waiting. For a resting plan.
    Enrol(u16, Flow),
    /// Books a flow under a number and gives it its earliest valid slots. For a running plan.
    Admit(u16, Flow),
    /// Ends a booking.
    Withdraw(u16),
    /// Places all booked flows anew. For a resting plan.
    Replan,
    /// Sets a resting plan running.
    Start,
    /// Brings a running plan to rest.
    Rest,
    /// Puts a module on the fabric of a resting plan.
    Fit(Module),
}
