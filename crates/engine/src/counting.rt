//! How a tally is kept.
ghost use Rattle.std.specs.Prelude.{◌≡◌, ◌+◌};
ghost use Rattle.oracle.specs.Outcomes.{counted};
ghost use Rattle.engine.specs.States.{visited};
ghost use Rattle.engine.specs.Tallies.{cleared};

use crate::tally::Tally;
use oracle::outcome::{Outcome, Reached};

impl Tally {
    // One object and no steps.
    pub(crate) fn cleared() -> Tally
        ensures { result ≡ cleared }
    {
        Tally {
            objects: 1,
            steps: 0,
        }
    }

    // Adds a walk. The numbers stay at the greatest u64 once they are there.
    pub(crate) fn book(&mut self, walk: Outcome)
        ensures objects { self.new.objects ≡ visited walk.reached self.old.objects }
        ensures steps { self.new.steps ≡ counted (self.old.steps + walk.steps) }
    {
        self.steps = self.steps.saturating_add(walk.steps);
        match walk.reached {
            Reached::Child => self.objects = self.objects.saturating_add(1),
            Reached::End => {}
        }
    }
}
