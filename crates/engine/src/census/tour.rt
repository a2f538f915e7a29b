//! What a census is made of: an oracle, where it rests, and a tally; and what each act does to them.
ghost use Rattle.std.specs.Prelude.{◌≡◌, MatchResult};
ghost use Rattle.refusals.specs.declared.Refusal.TheVariants.{PastEnd};
ghost use Rattle.marks.specs.Opening.{moved_to, opened};
ghost use Rattle.oracle.specs.Home.{steps_home};
ghost use Rattle.oracle.specs.Outcomes.{ticks};
ghost use Rattle.oracle.specs.Walk.{walk};
ghost use Rattle.engine.specs.declared.rest.Rest.TheVariants.{Past, Standing};
ghost use Rattle.engine.specs.Places.{read_from, save_from};
ghost use Rattle.engine.specs.States.{advanced, next_booked, next_state, rest_after, spot_of, tally_after};
ghost use Rattle.engine.specs.Steps.{next_steps};
ghost use Rattle.engine.specs.Tallies.{booked, cleared};

use crate::rest::Rest;
use crate::tally::Tally;
use marks::opening::open_block;
use marks::writing::write_block;
use oracle::coded::Coded;
use oracle::home::go_home;
use oracle::outcome::Reached;
use oracle::walk::walk;
use oracle::walking::Walking;
use refusals::Refusal;

// `sound` stands in clauses below: they name the fields, which a model would hide, and a ghost field holds
// propositions alone.
#[derive(Drop)]
pub(super) struct Tour<O> {
    pub(super) oracle: O,
    pub(super) rest: Rest,
    pub(super) tally: Tally,
}

impl<O> Tour<O> {
    // The oracle, where the census stands at its current object. Refused past the end.
    pub(super) fn here(&self) -> Result<&O, Refusal>
        ensures { MatchResult result (λ o. (self.now.rest ≡ Standing) × (o.now ≡ self.now.oracle)) (λ e. (self.now.rest ≡ Past) × (e ≡ PastEnd)) }
    {
        match self.rest {
            Rest::Standing => Ok(&self.oracle),
            Rest::Past => Err(Refusal::PastEnd),
        }
    }
}

impl<O: Walking> Tour<O> {
    // Goes home. The tally does not count the steps.
    pub(super) fn begin(&mut self)
        requires { O.Walking.sound self.old.oracle }
        ensures sound { O.Walking.sound self.new.oracle }
        ensures setup { O.Walking.setup self.new.oracle ≡ O.Walking.setup self.old.oracle }
        ensures root { O.Walking.current self.new.oracle ≡ (O.Walking.setup self.old.oracle).root }
        ensures rest { self.new.rest ≡ Standing }
        ensures tally { self.new.tally ≡ cleared }
        ensures called { O.Walking.calls self.new.oracle ≡ ticks O.Walking.tick (steps_home (O.Walking.setup self.old.oracle) (O.Walking.current self.old.oracle)) (O.Walking.calls self.old.oracle) }
    {
        go_home(&mut self.oracle);
        self.rest = Rest::Standing;
        self.tally = Tally::cleared();
    }

    // The walk to the next object, its steps booked: the rank there, or none at the end.
    fn walk_on(&mut self) -> Option<u32>
        requires sound { O.Walking.sound self.old.oracle }
        requires standing { self.old.rest ≡ Standing }
        ensures sound { O.Walking.sound self.new.oracle }
        ensures setup { O.Walking.setup self.new.oracle ≡ O.Walking.setup self.old.oracle }
        ensures advanced { (result, self.new.rest, O.Walking.current self.new.oracle) ≡ advanced (O.Walking.setup self.old.oracle) (walk (O.Walking.setup self.old.oracle) (O.Walking.current self.old.oracle)).stop }
        ensures booked { self.new.tally ≡ booked (walk (O.Walking.setup self.old.oracle) (O.Walking.current self.old.oracle)).stop (walk (O.Walking.setup self.old.oracle) (O.Walking.current self.old.oracle)).steps self.old.tally }
        ensures called { O.Walking.calls self.new.oracle ≡ ticks O.Walking.tick (walk (O.Walking.setup self.old.oracle) (O.Walking.current self.old.oracle)).steps (O.Walking.calls self.old.oracle) }
    {
        let outcome = walk(&mut self.oracle, 0);
        self.tally.book(outcome);
        match outcome.reached {
            Reached::Child => Some(self.oracle.rank()),
            Reached::End => {
                self.rest = Rest::Past;
                None
            }
        }
    }

    pub(super) fn advance(&mut self) -> Result<Option<u32>, Refusal>
        requires { O.Walking.sound self.old.oracle }
        ensures sound { O.Walking.sound self.new.oracle }
        ensures setup { O.Walking.setup self.new.oracle ≡ O.Walking.setup self.old.oracle }
        ensures advanced { (result, self.new.rest, O.Walking.current self.new.oracle) ≡ next_state (O.Walking.setup self.old.oracle) self.old.rest (O.Walking.current self.old.oracle) }
        ensures booked { self.new.tally ≡ next_booked (O.Walking.setup self.old.oracle) self.old.rest (O.Walking.current self.old.oracle) self.old.tally }
        ensures called { O.Walking.calls self.new.oracle ≡ ticks O.Walking.tick (next_steps (O.Walking.setup self.old.oracle) (spot_of self.old.rest (O.Walking.current self.old.oracle))) (O.Walking.calls self.old.oracle) }
    {
        self.here()?;
        Ok(self.walk_on())
    }
}

impl<O: Coded> Tour<O> {
    pub(super) fn put_code(&self, buffer: &mut [u8]) -> Result<(), Refusal>
        requires { O.Walking.sound self.now.oracle }
        ensures { (result, buffer.new) ≡ read_from (O.Walking.setup self.now.oracle) buffer.old (spot_of self.now.rest (O.Walking.current self.now.oracle)) }
    {
        self.here()?.put(buffer)
    }

    pub(super) fn put_block(&self, job: u32, buffer: &mut [u8]) -> Result<(), Refusal>
        requires { O.Walking.sound self.now.oracle }
        ensures { (result, buffer.new) ≡ save_from job (O.Walking.setup self.now.oracle) buffer.old (spot_of self.now.rest (O.Walking.current self.now.oracle)) }
    {
        write_block(self.here()?, job, buffer)
    }

    pub(super) fn take_block(&mut self, job: u32, block: &[u8]) -> Result<(), Refusal>
        requires { O.Walking.sound self.old.oracle }
        ensures sound { O.Walking.sound self.new.oracle }
        ensures setup { O.Walking.setup self.new.oracle ≡ O.Walking.setup self.old.oracle }
        ensures moved { (result, O.Walking.current self.new.oracle) ≡ moved_to (O.Walking.current self.old.oracle) (opened job (O.Walking.setup self.old.oracle) block.now) }
        ensures rest { self.new.rest ≡ rest_after result self.old.rest }
        ensures tally { self.new.tally ≡ tally_after result self.old.tally }
        ensures called { O.Walking.calls self.new.oracle ≡ O.Walking.calls self.old.oracle }
    {
        open_block(&mut self.oracle, job, block)?;
        self.rest = Rest::Standing;
        self.tally = Tally::cleared();
        Ok(())
    }
}
