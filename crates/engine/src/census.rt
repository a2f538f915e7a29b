//! A census, and what its contracts see of it.
mod acts;
mod codes;
mod perform;
mod tour;

use crate::census::tour::Tour;
use oracle::walking::Walking;
use std::marker::Model;

#[derive(Drop)]
pub struct Census<O: Walking> {
    tour: Tour<O>,
}

// Contracts see the oracle, for its set-up, and the view of the plain census. The set-up itself cannot
// stand in a model's value: its functions have no code.
impl<O: Walking> Model for Census<O> {
    ghost use Rattle.engine.specs.Seen.{Seen, seen};

    ghost Value = { Seen O };

    ghost view = { λ c. seen O.Walking.setup O.Walking.current c.tour };

    ghost invariant = { λ c. O.Walking.sound c.tour.oracle };
}
