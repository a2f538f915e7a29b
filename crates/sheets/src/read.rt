ghost use Rattle.std.specs.Prelude.{◌≡◌, ◌≤◌, length};
ghost use Rattle.maps.specs.Views.{through};
ghost use Rattle.sheets.specs.Laws.{Accepting, Refusing};
ghost use Rattle.sheets.specs.Reading.{wanted_by, at_end, read_from, read_all};
ghost use Rattle.sheets.specs.Views.{plan_of, state_of};
ghost use Rattle.sheets.specs.Settings.{unset};
ghost use Rattle.sheets.specs.Cut.{cut};

use super::fault::Fault;
use super::order::{line_length, stopped};
use super::plan::{Plan, Subject};
use super::state::State;
use refusals::Refusal;

// The most bytes that a sheet has.
pub(crate) const MOST_BYTES: usize = 65_536;

// The plan; without a C line the cap is the subject's height.
fn plan(state: State) -> Result<Plan, Refusal>
    ensures { through plan_of result ≡ wanted_by (state_of state) (state_of state).topic }
{
    let subject = Subject::from(state.topic.ok_or(Refusal::SheetShort)?);
    Ok(Plan {
        subject,
        cap: state.cap.unwrap_or(subject.height()),
        most: state.most,
    })
}

// What is wanted where no finished line is left.
fn finish(state: State, rest: &[u8]) -> Result<Plan, Refusal>
    ensures { through plan_of result ≡ at_end (state_of state) rest.now }
{
    if !stopped(state.last) {
        return Err(Refusal::SheetShort);
    }
    if !rest.is_empty() {
        return Err(Refusal::LineOrder);
    }
    plan(state)
}

// Reads line after line, and what follows the last.
fn read_lines(bytes: &[u8]) -> Result<Plan, Fault>
    requires { length bytes.now ≤ 65536 }
    ensures { through plan_of result ≡ read_from 1 unset (cut bytes.now).lines (cut bytes.now).rest }
{
    let mut state = State::new();
    let mut rest = bytes;
    // counted by hand: a split would number its pieces, but its last piece is no line and has to be told apart;
    // cut by two slices: a shared part of a line would have to lie in items, which has no use of it
    let mut line = 1u32;
    while let Some(n) = line_length(rest) {
        state = state.after_bytes(&rest[0..n], line)?;
        rest = &rest[n + 1..];
        line += 1;
    }
    // what is wrong behind the finished lines is wrong at the line that would come next
    finish(state, rest).map_err(|refusal| Fault { refusal, line })
}

// The plan that the sheet asks for, or its first fault.
pub fn read_sheet(bytes: &[u8]) -> Result<Plan, Fault>
    ensures value { through plan_of result ≡ read_all bytes.now }
    ensures accepting { Accepting bytes.now (through plan_of result) }
    ensures refusing { Refusing bytes.now (through plan_of result) }
{
    if bytes.len() > MOST_BYTES {
        return Err(Fault {
            refusal: Refusal::SheetLong,
            line: 0,
        });
    }
    read_lines(bytes)
}
