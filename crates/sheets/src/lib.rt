//! Sheets: the order of lines, the set-up that their values make, and the reader over both.
#![tactic(auto)]

mod fault;
mod faults;
mod input;
mod order;
mod plan;
mod read;
mod settings;
mod stage;
mod state;

pub use fault::Fault;
pub use input::sheet_bytes;
pub use plan::{Plan, Subject};
pub use read::read_sheet;
