//! The planner: which flow may send in which slot, over any fabric.
#![tactic(auto)]

pub mod any_plans;
mod any_questions;
mod booked;
mod booking_calls;
mod bookings;
pub mod calls;
pub mod flow_numbers;
pub mod flow_orders;
pub mod flow_sets;
pub mod flows;
pub mod laws;
pub mod link_sets;
pub mod loads;
mod opens;
pub mod orders;
pub mod overlaps;
pub mod performing;
pub mod periods;
pub mod placings;
pub mod plan_faults;
pub mod planning;
pub mod plans;
pub mod questions;
mod replans;
mod slot_requests;
pub mod slots;
pub mod states;
pub mod unplaced;
