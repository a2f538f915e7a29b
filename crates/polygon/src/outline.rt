//! The corners of a polygon, and what their number alone decides.
ghost use Rattle.std.specs.Prelude.{◌≡◌, ℕ, ◌≤◌};
ghost use Rattle.digits.specs.Bits.{bit};
ghost use Rattle.polygon.specs.Rows.{Tied, bare};
ghost use Rattle.triangulations.specs.Moves.{joined, fan};
ghost use Rattle.triangulations.specs.Polygon.{is_diagonal};

use super::chord::Chord;
use super::rows::Rows;
use std::array;

// The n corners of a polygon.
#[derive(Clone, Copy)]
pub(crate) struct Outline {
    pub(crate) n: u32,
    ghost large: { 3 ≤ n },
    ghost few: { n ≤ 24 },
}

impl Outline {
    // Whether the line is a diagonal.
    pub(crate) fn is_diagonal(self, line: Chord) -> bool
        ensures { result ≡ is_diagonal self.n (line.a, line.b) }
    {
        let Chord { a, b } = line;
        if a >= b || b >= self.n {
            return false;
        }
        if b == a + 1 {
            return false;
        }
        a > 0 || b < self.n - 1
    }

    // The corners next to corner a, if the polygon has it.
    fn side_row(self, a: u32) -> u32
        ensures { (b : ℕ) → bit result b ≡ joined self.n bare a b }
    {
        if a >= self.n {
            return 0;
        }
        let before = if a == 0 { self.n - 1 } else { a - 1 };
        let after = if a + 1 == self.n { 0 } else { a + 1 };
        (1u32 << before) | (1u32 << after)
    }

    // The sides alone.
    pub(crate) fn side_rows(self) -> Rows
        ensures { Tied self.n bare result.0 }
    {
        Rows(array::from_fn(|a| self.side_row(a as u32)))
    }

    // The sides and every diagonal at corner 0.
    pub(crate) fn fan_rows(self) -> Rows
        ensures { Tied self.n (fan self.n) result.0 }
    {
        let mut rows = self.side_rows();
        for b in 2..self.n - 1 {
            rows.switch(Chord { a: 0, b });
        }
        rows
    }
}
