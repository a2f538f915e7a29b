//! A listing that is under way.
mod lining;
mod making;
mod paging;

use engine::census::Census;
use oracle::walking::Walking;

// A census, the most objects to print, how many are printed, and whether the last line is written.
#[derive(Drop)]
pub struct Pager<O: Walking> {
    census: Census<O>,
    most: u32,
    printed: u32,
    done: bool,
}
