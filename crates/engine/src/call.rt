//! One call of a list of acts.
ghost use Rattle.std.specs.Prelude.{◌≡◌, Ok};
ghost use Rattle.engine.specs.Tallies.{cleared};
ghost use Rattle.engine.specs.declared.act.Answer.TheVariants.{Done};

use crate::act::{Act, Answer};
use crate::tally::Tally;
use refusals::Refusal;

// The act with its buffer, and, once it is carried out, its answer or refusal and the tally after it.
#[derive(Drop)]
pub struct Call {
    pub act: Act,
    pub bytes: Vec<u8>,
    pub answer: Result<Answer, Refusal>,
    pub tally: Tally,
}

impl Call {
    // An act to be carried out; the answer and the tally mean nothing yet. They are no Option: whoever reads
    // them has run the list, and then each call has both.
    pub fn new(act: Act, bytes: Vec<u8>) -> Call
        ensures act { result.act ≡ act }
        ensures bytes { result.bytes.items ≡ bytes.items }
        ensures answer { result.answer ≡ Ok Done }
        ensures tally { result.tally ≡ cleared }
    {
        Call {
            act,
            bytes,
            answer: Ok(Answer::Done),
            tally: Tally::cleared(),
        }
    }
}
