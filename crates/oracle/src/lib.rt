//! The adjacency oracle: what a set-up is, its list and its walk, and the two interfaces to it.
#![tactic(auto)]

pub mod coded;
pub mod home;
mod moves;
pub mod outcome;
pub mod theory;
pub mod walk;
pub mod walking;
