//! One line of a protocol.
ghost use Rattle.std.specs.Prelude.{◌≡◌};
ghost use Rattle.std.specs.Option.{option_map};
ghost use Rattle.protocols.specs.Laws.{Spells};
ghost use Rattle.protocols.specs.Reading.{alone, behind_job, reading, saving, resuming, asking, request_at};
ghost use Rattle.protocols.specs.Views.{request_of, with_slice};

use super::bytes::digits_in;
use super::numbers::{job_in, size_in};
use super::request::Request;
use super::words::part;

// A line of one word.
fn one_word(line: &[u8]) -> Option<Request<'_>>
    ensures { option_map request_of result ≡ alone line.now }
{
    match line {
        b"next" => Some(Request::Next),
        b"restart" => Some(Request::Restart),
        b"tally" => Some(Request::Tally),
        _ => None,
    }
}

// What stands behind the word of a read.
fn read_from(rest: &[u8]) -> Option<Request<'_>>
    ensures { option_map request_of result ≡ reading rest.now }
{
    Some(Request::Read(size_in(rest)?))
}

// A job number and what stands behind its space.
fn job_first(rest: &[u8]) -> Option<(u32, &[u8])>
    ensures { option_map with_slice result ≡ behind_job rest.now }
{
    let (job, behind) = part(b' ', rest)?;
    Some((job_in(job)?, behind))
}

fn save_from(rest: &[u8]) -> Option<Request<'_>>
    ensures { option_map request_of result ≡ saving rest.now }
{
    let (job, size) = job_first(rest)?;
    Some(Request::Save(job, size_in(size)?))
}

fn resume_from(rest: &[u8]) -> Option<Request<'_>>
    ensures { option_map request_of result ≡ resuming rest.now }
{
    let (job, digits) = job_first(rest)?;
    Some(Request::Resume(job, digits_in(digits)?))
}

// A line of a word and what stands behind its space.
fn more_words<'a>(word: &[u8], rest: &'a [u8]) -> Option<Request<'a>>
    ensures { option_map request_of result ≡ asking word.now rest.now }
{
    match word {
        b"read" => read_from(rest),
        b"save" => save_from(rest),
        b"resume" => resume_from(rest),
        _ => None,
    }
}

// What the line asks for; none where it is no request.
pub fn read_request(line: &[u8]) -> Option<Request<'_>>
    ensures value { option_map request_of result ≡ request_at line.now }
    ensures spells { Spells line.now (option_map request_of result) }
{
    match part(b' ', line) {
        None => one_word(line),
        Some((word, rest)) => more_words(word, rest),
    }
}
