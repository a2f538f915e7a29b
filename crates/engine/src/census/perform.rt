//! Any act of a census.
ghost use Rattle.std.specs.Prelude.{◌≡◌};
ghost use Rattle.oracle.specs.Outcomes.{ticks};
ghost use Rattle.engine.specs.Acts.{told, plain_act};
ghost use Rattle.engine.specs.Steps.{act_steps, RefusalsChangeNothing};

use crate::act::{Act, Answer};
use crate::census::Census;
use oracle::coded::Coded;
use refusals::Refusal;

// The answer of a next.
fn told(rank: Option<u32>) -> Answer
    ensures { result ≡ told rank }
{
    rank.map_or(Answer::End, Answer::Rank)
}

impl<O: Coded> Census<O> {
    // Carries out an act. Read and save write to the buffer, and resume takes it for the block. The oracle is told
    // to step as often as the act costs, and no more.
    #[tactic(auto, using(crate::proofs::Refused::refusals_change_nothing), unfolding(oracle::specs::Outcomes::ticks))]
    pub fn perform(&mut self, act: Act, buffer: &mut [u8]) -> Result<Answer, Refusal>
        ensures setup { O.Walking.setup self.new.oracle ≡ O.Walking.setup self.old.oracle }
        ensures performed { (result, buffer.new, self.new.view) ≡ plain_act (O.Walking.setup self.old.oracle) self.old.view act buffer.old }
        ensures called { O.Walking.calls self.new.oracle ≡ ticks O.Walking.tick (act_steps (O.Walking.setup self.old.oracle) self.old.view act) (O.Walking.calls self.old.oracle) }
        ensures refused { RefusalsChangeNothing (O.Walking.setup self.old.oracle) }
    {
        // an act is a value of the list that a caller gives, so it is not a closure
        match act {
            Act::Next => Ok(told(self.next()?)),
            Act::Restart => {
                self.restart();
                Ok(Answer::Done)
            }
            Act::Read => {
                self.read(buffer)?;
                Ok(Answer::Done)
            }
            Act::Save(job) => {
                self.save(job, buffer)?;
                Ok(Answer::Done)
            }
            Act::Resume(job) => {
                self.resume(job, buffer)?;
                Ok(Answer::Done)
            }
            Act::Tally => Ok(Answer::Counts(self.tally())),
        }
    }
}
