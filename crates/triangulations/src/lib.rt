//! Triangulations of a convex polygon: what they are, and the set-up of their census.
#![tactic(auto)]
