//! The tests of `labels`, in a crate of their own so that the library is proved once.
#![tactic(auto)]

#[cfg(test)]
mod directories;
#[cfg(test)]
mod names;
