//! Sessions: a script is run line after line, on a plan and the labels of its flows.
#![tactic(auto)]

mod answers;
mod builds;
mod calling;
mod faults;
mod obeying;
pub mod printers;
mod rows;
pub mod running;
mod sessions;
mod showing;
mod starting;
mod tellers;
