//! Where a census rests between acts.

// At its oracle's current object, or past the end of the list.
#[derive(Clone, Copy)]
pub enum Rest {
    Standing,
    Past,
}
