//! Walking over the triangulations.
ghost use Rattle.polygon.specs.Laws.{whole_stands};
ghost use Rattle.polygon.specs.Views.{current_of};
ghost use Rattle.triangulations.proofs.Laws.{polygon_lawful};
ghost use Rattle.triangulations.specs.Census.{polygon};

use super::chord::Chord;
use super::rows::first_gap;
use super::subject::Polygon;
use oracle::walking::Walking;
use pairs::{pair_number, pair_total};
use refusals::Refusal;

impl Walking for Polygon {
    ghost setup = { λ p. polygon p.outline.n };

    ghost current = { current_of };

    ghost sound = { λ _. Unit {0} };

    ghost lawful = { λ p _. polygon_lawful p.outline.n p.outline.large p.outline.few };

    ghost stands = { λ p _. whole_stands p.outline.n p.rows.0 p.whole };

    fn width(&self) -> usize {
        pair_total(self.outline.n)
    }

    fn height(&self) -> u32 {
        self.outline.n - 3
    }

    // Each step home joins one corner more to corner 0, and at the root all are joined: the rank counts
    // those that are not.
    fn rank(&self) -> u32 {
        self.outline.n - 1 - self.rows.0[0].count_ones()
    }

    // Two corners joined to corner 0 with a gap between them, and none joined in it, are joined to each
    // other. So the first gap holds the smallest pair that leads home.
    fn home(&self) -> Option<usize> {
        let apart = ((1u32 << self.outline.n) - 2) ^ self.rows.0[0];
        if apart == 0 {
            return None;
        }
        let (first, next) = first_gap(apart, self.rows.0[0]);
        Some(pair_number(first - 1, next))
    }

    // Exactly one corner on each side of a diagonal is joined to both of its ends, so the two corners
    // joined to both are the ends of the diagonal that comes.
    fn step(&mut self, slot: usize) -> Result<Option<usize>, Refusal> {
        if slot >= pair_total(self.outline.n) {
            return Err(Refusal::SlotRange);
        }
        if !self.has(slot) {
            return Ok(None);
        }
        let line = Chord::at(slot);
        let across = self.rows.apexes(line);
        self.rows.switch(line);
        self.rows.switch(across);
        Ok(Some(across.number()))
    }
}
