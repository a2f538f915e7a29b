//! Triangulations of a convex polygon as an adjacency oracle.
#![tactic(auto)]

mod chord;
mod coding;
mod making;
mod outline;
mod rows;
mod subject;
mod walking;

pub use subject::Polygon;
