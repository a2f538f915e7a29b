//! The lines of a listing, page by page.
#![tactic(auto)]

pub mod listing;
pub mod pager;
