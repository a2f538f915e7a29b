//! The acts of a census that need no codes, held to the plain census.
ghost use Rattle.std.specs.Prelude.{◌≡◌};
ghost use Rattle.oracle.specs.Home.{steps_home};
ghost use Rattle.oracle.specs.Outcomes.{ticks};
ghost use Rattle.oracle.specs.Places.{at};
ghost use Rattle.engine.specs.Places.{rank_at};
ghost use Rattle.engine.specs.Plain.{plain_next};
ghost use Rattle.engine.specs.Stand.{Placed};
ghost use Rattle.engine.specs.Steps.{next_steps};
ghost use Rattle.engine.specs.View.{begun};

use crate::census::Census;
use crate::census::tour::Tour;
use crate::rest::Rest;
use crate::tally::Tally;
use oracle::walking::Walking;
use refusals::Refusal;

impl<O: Walking> Census<O> {
    // The oracle goes home, and the census stands at the root. The tally leaves out the steps home, and `called`
    // counts them: so often the oracle was told to step.
    pub fn new(oracle: O) -> Census<O>
        requires { O.Walking.sound oracle }
        ensures setup { O.Walking.setup result.oracle ≡ O.Walking.setup oracle }
        ensures begun { result.view ≡ begun (O.Walking.setup oracle) }
        ensures root { result.view.stand.current ≡ (O.Walking.setup oracle).root }
        ensures called { O.Walking.calls result.oracle ≡ ticks O.Walking.tick (steps_home (O.Walking.setup oracle) (O.Walking.current oracle)) (O.Walking.calls oracle) }
    {
        let mut census = Census {
            tour: Tour {
                oracle,
                rest: Rest::Standing,
                tally: Tally::cleared(),
            },
        };
        census.restart();
        census
    }

    // Does what making does.
    #[tactic(auto, using(crate::proofs::Moves::begins))]
    pub fn restart(&mut self)
        ensures setup { O.Walking.setup self.new.oracle ≡ O.Walking.setup self.old.oracle }
        ensures begun { self.new.view ≡ begun (O.Walking.setup self.old.oracle) }
        ensures root { self.new.view.stand.current ≡ (O.Walking.setup self.old.oracle).root }
        ensures called { O.Walking.calls self.new.oracle ≡ ticks O.Walking.tick (steps_home (O.Walking.setup self.old.oracle) self.old.view.stand.current) (O.Walking.calls self.old.oracle) }
    {
        self.tour.begin();
    }

    // One place on: the rank of the object there, or none at the end. Refused past the end, before any step.
    pub fn next(&mut self) -> Result<Option<u32>, Refusal>
        ensures setup { O.Walking.setup self.new.oracle ≡ O.Walking.setup self.old.oracle }
        ensures next { (result, self.new.view) ≡ plain_next (O.Walking.setup self.old.oracle) self.old.view }
        ensures called { O.Walking.calls self.new.oracle ≡ ticks O.Walking.tick (next_steps (O.Walking.setup self.old.oracle) (at (O.Walking.setup self.old.oracle) self.old.view.stand.place)) (O.Walking.calls self.old.oracle) }
    {
        self.tour.advance()
    }

    // The rank of the object at the place, or none past the end. A caller learns here what the type says of
    // every census: its oracle is sound, and its place is one of the list or the one past its end.
    #[tactic(auto, using(crate::proofs::Standings::spot_of_tour, crate::proofs::Standings::placed))]
    pub fn rank(&self) -> Option<u32>
        ensures rank { result ≡ rank_at (O.Walking.setup self.now.oracle) (at (O.Walking.setup self.now.oracle) self.now.view.stand.place) }
        ensures sound { O.Walking.sound self.now.oracle }
        ensures placed { Placed (O.Walking.setup self.now.oracle) self.now.view.stand }
    {
        let Ok(oracle) = self.tour.here() else {
            return None;
        };
        Some(oracle.rank())
    }

    // The objects and the steps since the tally was cleared.
    pub fn tally(&self) -> Tally
        ensures { result ≡ self.now.view.tally }
    {
        self.tour.tally
    }
}
