//! What the programs print, from the bytes of a sheet and of a protocol.
#![tactic(auto)]

mod answers;
mod listing;
mod plans;
mod printing;
mod replay_printing;
mod replaying;
mod sheet_pager;

pub use answers::answer_line;
pub use listing::list_sheet;
pub use printing::print_sheet;
pub use replay_printing::print_replay;
pub use replaying::{replay_protocol, replay_sheet};
pub use sheet_pager::SheetPager;
