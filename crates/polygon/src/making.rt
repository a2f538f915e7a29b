//! Making a polygon, and asking for a pair of its current set.
ghost use Rattle.std.specs.Prelude.{◌≡◌, ◌≤◌, ◌↔◌, ◌==◌, true, is_ok, IfOk};
ghost use Rattle.polygon.specs.Rows.{set_of};
ghost use Rattle.polygon.specs.Views.{begun, seen_by};
ghost use Rattle.triangulations.specs.Statements.{Stands};

use super::chord::Chord;
use super::outline::Outline;
use super::subject::Polygon;
use oracle::walking::Walking;
use refusals::Refusal;

impl Polygon {
    // A polygon of n corners, standing at its root.
    pub fn new(n: u32) -> Result<Polygon, Refusal>
        ensures made { seen_by ⟦<Polygon as Walking>⟧.setup ⟦<Polygon as Walking>⟧.current result ≡ begun n }
        ensures range { (is_ok result ≡ true) ↔ ((3 ≤ n) × (n ≤ 24)) }
        ensures sound { IfOk result (λ p. ⟦<Polygon as Walking>⟧.sound p) }
        ensures stands { IfOk result (λ p. Stands n (⟦<Polygon as Walking>⟧.setup p)) }
    {
        // the reader of sheets has the same limits and knows no polygon
        if n < 3 || n > 24 {
            return Err(Refusal::OutOfRange);
        }
        let outline = Outline { n };
        let rows = outline.fan_rows();
        Ok(Polygon { outline, rows })
    }

    // Whether pair e is in the current set. Most pairs are not joined, so that is asked first.
    pub(crate) fn has(&self, e: usize) -> bool
        ensures { result ≡ (set_of self.now.outline.n self.now.rows.0 e == 1) }
    {
        let line = Chord::at(e);
        self.rows.are_joined(line) && self.outline.is_diagonal(line)
    }
}
