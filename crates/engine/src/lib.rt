//! The census over any adjacency oracle: its acts, one by one and as lists.
#![tactic(auto)]

pub mod act;
pub mod call;
pub mod census;
mod counting;
mod rest;
pub mod run;
pub mod tally;
pub mod theory;
