//! The tests of `fabric`, in a crate of their own so that the library is proved once.
#![tactic(auto)]

#[cfg(test)]
mod route_checks;
#[cfg(test)]
mod route_lists;
#[cfg(test)]
mod spurs;
#[cfg(test)]
mod trees;
