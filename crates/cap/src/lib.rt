//! A cap over any oracle: the objects of at most a given rank.
#![tactic(auto)]

mod cap;

pub use cap::Cap;
