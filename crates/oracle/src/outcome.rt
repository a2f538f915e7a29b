//! What a walk comes to.

// A child, which is current then, or the end of the list, and then the root is current.
#[derive(Debug, Clone, Copy, PartialEq, Eq)]
pub enum Reached {
    Child,
    End,
}

// Where a walk stopped, and its steps; the count stays at the greatest u64 once it is there.
#[derive(Debug, Clone, Copy, PartialEq, Eq)]
pub struct Outcome {
    pub reached: Reached,
    pub steps: u64,
}
