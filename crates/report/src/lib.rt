//! What the program `routes` reads and prints: its arguments, and the lines of its report.
#![tactic(auto)]

pub mod commas;
pub mod descriptions;
pub mod lines;
pub mod links;
pub mod misuses;
pub mod options;
pub mod piles;
pub mod requests;
pub mod texts;
pub mod words;
