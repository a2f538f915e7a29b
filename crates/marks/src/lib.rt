//! Mark blocks: 512 bytes that record where a census stands.
#![tactic(auto)]

mod checking;
mod head;
pub mod opening;
pub mod writing;
