//! The tally of a census.

// The objects that were visited and the steps that were made since the last clearing.
#[derive(Clone, Copy, PartialEq, Eq, Debug)]
pub struct Tally {
    pub objects: u64,
    pub steps: u64,
}
