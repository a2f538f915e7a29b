//! Connected sets of regions behind the adjacency oracle.
#![tactic(auto)]

mod coding;
mod flood;
mod judging;
mod making;
mod subject;
mod turning;
mod walking;

pub use subject::Regions;
