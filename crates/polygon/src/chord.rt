//! A line between two corners.
ghost use Rattle.std.specs.Prelude.{◌≡◌, ◌<◌, ◌≤◌};
ghost use Rattle.pairs.specs.Pairs.{number, corners_of};

use pairs::{corners, pair_number};

// The line between the corners a and b, where a ≤ b; they are equal only in the pair (0, 0) that is read past
// the last number.
#[derive(Clone, Copy)]
pub(crate) struct Chord {
    pub(crate) a: u32,
    pub(crate) b: u32,
    ghost ordered: { a ≤ b },
    ghost within: { b < 24 },
}

impl Chord {
    // The line of pair number e.
    pub(crate) fn at(e: usize) -> Chord
        ensures { (result.a, result.b) ≡ corners_of e }
    {
        let (a, b) = corners(e);
        Chord { a, b }
    }

    // The number of its pair.
    pub(crate) fn number(self) -> usize
        ensures { result ≡ number self.a self.b }
    {
        pair_number(self.a, self.b)
    }
}
