//! Adjacency rows: digit b of row a is 1 where the corners a and b are joined by a side or a diagonal.
ghost use Rattle.std.specs.Prelude.{◌≡◌, ◌<◌, ◌==◌};
ghost use Rattle.std.specs.Int.Count.{count_trailing_zeros};
ghost use Rattle.polygon.specs.Rows.{linked, switched, common, two_lowest, gap_of, stays_within, is_free};

use super::chord::Chord;

// A row for each corner that a polygon can have: `take` has no answer for want of memory, so the rows are of a
// fixed size.
#[derive(Clone, Copy)]
pub(crate) struct Rows(pub(crate) [u32; 24]);

impl Rows {
    // Whether the ends of the line are joined.
    pub(crate) fn are_joined(&self, line: Chord) -> bool
        ensures { result ≡ (linked self.now.0 line.a line.b == 1) }
    {
        (self.0[line.a as usize] >> line.b) & 1 == 1
    }

    // Parts the ends of the line if they are joined, and joins them if they are not.
    pub(crate) fn switch(&mut self, line: Chord)
        ensures { self.new.0 ≡ switched self.old.0 line.a line.b }
    {
        let Chord { a, b } = line;
        self.0[a as usize] ^= 1u32 << b;
        self.0[b as usize] ^= 1u32 << a;
    }

    // The line between the two corners joined to both ends of this one.
    pub(crate) fn apexes(&self, line: Chord) -> Chord
        requires { (two_lowest (common self.now.0 line.a line.b)).1 < 24 }
        ensures { (result.a, result.b) ≡ two_lowest (common self.now.0 line.a line.b) }
    {
        let both = self.0[line.a as usize] & self.0[line.b as usize];
        Chord {
            a: both.trailing_zeros(),
            b: (both & (both - 1)).trailing_zeros(),
        }
    }

    // Whether corner c is joined to none but the corners from one end of the line to the other.
    fn stays_within(&self, line: Chord, c: u32) -> bool
        requires { c < 24 }
        ensures { result ≡ stays_within self.now.0 line.a line.b c }
    {
        let span = (1u32 << (line.b + 1)) - (1u32 << line.a);
        self.0[c as usize] & span == self.0[c as usize]
    }

    // Whether no edge leaves the corners between the ends of the line for those outside.
    pub(crate) fn is_free(&self, line: Chord) -> bool
        ensures { result ≡ is_free self.now.0 line.a line.b }
    {
        (line.a + 1..line.b).all(|c| self.stays_within(line, c))
    }
}

// The first of the corners that are apart from corner 0, and the next one that is in the row of corner 0.
pub(crate) fn first_gap(apart: u32, row: u32) -> (u32, u32)
    requires { count_trailing_zeros 32 apart < 32 }
    ensures { result ≡ gap_of apart row }
{
    let first = apart.trailing_zeros();
    (first, first + (row >> first).trailing_zeros())
}
