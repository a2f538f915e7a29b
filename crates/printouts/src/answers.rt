//! The lines of acts that were carried out.
ghost use Rattle.engine.specs.Runs.{entry_of};
ghost use Rattle.lines.specs.Appended.{Line};
ghost use Rattle.printouts.specs.Answers.{answer_room, answer_text, entry_room, entry_text};

use engine::act::{Act, Answer};
use engine::call::Call;
use engine::tally::Tally;
use lines::{counts_line, hex_line, number_line, refused_line};
use refusals::Refusal;
use std::alloc::AllocError;

// The line of an act that was carried out, from its buffer then and its answer.
pub(crate) fn act_line(
    out: &mut Vec<u8>,
    act: Act,
    buffer: &[u8],
    answer: Result<Answer, Refusal>,
) -> Result<(), AllocError>
    ensures { Line out.old result out.new (answer_text act buffer.now answer) (answer_room act buffer.now answer) }
{
    match (act, answer) {
        (Act::Read | Act::Save(_), Ok(Answer::Done)) => hex_line(out, buffer),
        (_, Ok(Answer::Done)) => out.extend_from_slice(b"done\n"),
        (_, Ok(Answer::End)) => out.extend_from_slice(b"end\n"),
        (_, Ok(Answer::Rank(rank))) => number_line(out, u64::from(rank)),
        (_, Ok(Answer::Counts(Tally { objects, steps }))) => counts_line(out, objects, steps),
        (_, Err(refusal)) => refused_line(out, refusal.number()),
    }
}

// The line of a call that was carried out.
pub fn answer_line(out: &mut Vec<u8>, call: &Call) -> Result<(), AllocError>
    ensures { Line out.old result out.new (entry_text (entry_of call.now)) (entry_room (entry_of call.now)) }
{
    act_line(out, call.act, call.bytes.as_slice(), call.answer)
}
