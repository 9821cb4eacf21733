//! The tests of `script`, in a crate of their own so that the library is proved once.
#![tactic(auto)]

#[cfg(test)]
mod forms;
#[cfg(test)]
mod told;
