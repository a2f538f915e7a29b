//! The acts of a census as values, and what they answer.
use crate::tally::Tally;

// Read and save write to a buffer, and resume reads one; save and resume are given a job number.
#[derive(Clone, Copy, PartialEq, Eq, Debug)]
pub enum Act {
    Next,
    Restart,
    Read,
    Save(u32),
    Resume(u32),
    Tally,
}

// What an act that is granted answers: next the rank or the end, tally the counts, the others that they are done.
#[derive(Clone, Copy, PartialEq, Eq, Debug)]
pub enum Answer {
    Rank(u32),
    End,
    Done,
    Counts(Tally),
}
