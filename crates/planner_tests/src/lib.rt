//! The tests of `planner`, in a crate of their own so that the library is proved once. They use only what is public.
#![tactic(auto)]

#[cfg(test)]
mod asking;
#[cfg(test)]
mod checks;
#[cfg(test)]
mod on_lines;
#[cfg(test)]
mod questions;
#[cfg(test)]
mod states;
#[cfg(test)]
mod worked;
