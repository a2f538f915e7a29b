//! A protocol of acts, carried out over the census that a sheet asks for.
ghost use Rattle.std.specs.Prelude.{◌≡◌, ◌+◌, ◌≤◌, true, is_ok, replicate, vec_len, vec_capacity};
ghost use Rattle.engine.specs.declared.act.Act.TheVariants.{Resume};
ghost use Rattle.lines.specs.Appended.{Line};
ghost use Rattle.lines.specs.Texts.{counts_room};
ghost use Rattle.pages.specs.Turns.{Listed};
ghost use Rattle.protocols.specs.Laws.{Readable};
ghost use Rattle.protocols.specs.Reading.{ordered, requests_in};
ghost use Rattle.protocols.specs.Requests.{Good, most_size, order_for};
ghost use Rattle.protocols.specs.Values.{bytes_of};
ghost use Rattle.protocols.specs.Views.{request_of};
ghost use Rattle.sheets.specs.Views.{plan_of};
ghost use Rattle.printouts.specs.Carried.{Carried};
ghost use Rattle.printouts.specs.Plans.{plan_setup, Drawable};
ghost use Rattle.printouts.specs.Printed.{protocol_lines, replay_lines, replay_room, run_lines, unreadable_text};

use crate::answers::act_line;
use crate::plans::drawn;
use cap::Cap;
use engine::act::Act;
use engine::census::Census;
use lines::{fault_line, number_line};
use oracle::coded::Coded;
use protocols::{MOST_SIZE, Request, UNWRITTEN, array_of, first_unreadable, next_request};
use regions::Regions;
use sheets::{Plan, Subject, read_sheet};
use std::alloc::AllocError;

// The bytes of a block: a resume of any other length is refused, whatever the bytes are.
const BLOCK: usize = 512;

fn unreadable_line(out: &mut Vec<u8>, line: u64) -> Result<(), AllocError>
    ensures { Line out.old result out.new (unreadable_text line) counts_room }
{
    // words of sixteen bytes, twenty digits at most, and the end of the line
    out.reserve(37)?;
    out.extend_from_slice(b"unreadable line ").unwrap();
    number_line(out, line)
}

fn carry_out<O: Coded>(
    census: &mut Census<O>,
    act: Act,
    buffer: &mut [u8],
    out: &mut Vec<u8>,
) -> Result<(), AllocError>
    ensures { Carried O.Walking.setup census.old (record { act = act; bytes = buffer.old }) out.old result census.new out.new }
{
    let answer = census.perform(act, buffer);
    act_line(out, act, buffer, answer)
}

// An act that writes to a buffer of so many bytes.
fn carry_out_on<O: Coded, const MOST: usize>(
    census: &mut Census<O>,
    act: Act,
    size: usize,
    out: &mut Vec<u8>,
) -> Result<(), AllocError>
    requires size { size ≤ MOST }
    requires most { MOST ≤ most_size }
    ensures { Carried O.Walking.setup census.old (record { act = act; bytes = replicate size 238 }) out.old result census.new out.new }
{
    let mut space = [UNWRITTEN; MOST];
    carry_out(census, act, &mut space[..size], out)
}

fn resume<O: Coded>(
    census: &mut Census<O>,
    job: u32,
    digits: &[u8],
    out: &mut Vec<u8>,
) -> Result<(), AllocError>
    ensures { Carried O.Walking.setup census.old (record { act = Resume job; bytes = bytes_of digits.now }) out.old result census.new out.new }
{
    match array_of::<BLOCK>(digits) {
        Some(mut block) => carry_out(census, Act::Resume(job), &mut block, out),
        None => carry_out(census, Act::Resume(job), &mut [], out),
    }
}

// Carries out what a line asks for. Its buffer is in memory of a fixed size, so that nothing but the lines asks
// for memory.
fn request_line<O: Coded>(
    census: &mut Census<O>,
    request: Request<'_>,
    out: &mut Vec<u8>,
) -> Result<(), AllocError>
    requires { Good (request_of request) }
    ensures { Carried O.Walking.setup census.old (order_for (request_of request.entry)) out.old result census.new out.new }
{
    match request {
        Request::Next => carry_out(census, Act::Next, &mut [], out),
        Request::Restart => carry_out(census, Act::Restart, &mut [], out),
        Request::Tally => carry_out(census, Act::Tally, &mut [], out),
        Request::Read(size) => carry_out_on::<O, MOST_SIZE>(census, Act::Read, size, out),
        Request::Save(job, size) => carry_out_on::<O, MOST_SIZE>(census, Act::Save(job), size, out),
        Request::Resume(job, digits) => resume(census, job, digits, out),
    }
}

fn acts_lines<O: Coded + Drop>(oracle: O, acts: &[u8], out: &mut Vec<u8>) -> Result<(), AllocError>
    requires sound { O.Walking.sound oracle }
    requires readable { Readable acts.now }
    ensures listed { Listed out.old.items (protocol_lines (O.Walking.setup oracle) acts.now) result out.new.items }
    ensures succeeds { vec_len out.old + replay_room (protocol_lines (O.Walking.setup oracle) acts.now) ≤ vec_capacity out.old → is_ok result ≡ true }
{
    let mut census = Census::new(oracle);
    let mut rest = acts;
    while let Some((request, behind)) = next_request(rest) {
        request_line(&mut census, request, out)?;
        rest = behind;
    }
    Ok(())
}

// Appends the lines of a protocol over a new census: one for each act, or that of the first line that is
// unreadable. The buffer is the only memory that grows.
pub fn replay_protocol<O: Coded + Drop>(
    oracle: O,
    acts: &[u8],
    out: &mut Vec<u8>,
) -> Result<(), AllocError>
    requires { O.Walking.sound oracle }
    ensures listed { Listed out.old.items (protocol_lines (O.Walking.setup oracle) acts.now) result out.new.items }
    ensures succeeds { vec_len out.old + replay_room (protocol_lines (O.Walking.setup oracle) acts.now) ≤ vec_capacity out.old → is_ok result ≡ true }
{
    match first_unreadable(acts) {
        Some(line) => unreadable_line(out, line),
        None => acts_lines(oracle, acts, out),
    }
}

fn replay_plan(plan: Plan, acts: &[u8], out: &mut Vec<u8>) -> Result<(), AllocError>
    requires { Drawable (plan_of plan).topic }
    ensures listed { Listed out.old.items (protocol_lines (plan_setup (plan_of plan)) acts.now) result out.new.items }
    ensures succeeds { vec_len out.old + replay_room (protocol_lines (plan_setup (plan_of plan)) acts.now) ≤ vec_capacity out.old → is_ok result ≡ true }
{
    let cap = plan.cap;
    // a pager parts in the same way: one place for both needs a trait with a generic method, and a
    // struct with an impl for each use, which is more than these two lines
    match plan.subject {
        Subject::Regions(map) => replay_protocol(Cap::new(Regions::new(&map), cap), acts, out),
        Subject::Polygon(n) => replay_protocol(Cap::new(drawn(n), cap), acts, out),
    }
}

// Appends what is printed of a protocol over the census that a sheet asks for.
pub fn replay_sheet(sheet: &[u8], acts: &[u8], out: &mut Vec<u8>) -> Result<(), AllocError>
    ensures listed { Listed out.old.items (replay_lines sheet.now acts.now) result out.new.items }
    ensures succeeds { vec_len out.old + replay_room (replay_lines sheet.now acts.now) ≤ vec_capacity out.old → is_ok result ≡ true }
{
    match read_sheet(sheet) {
        Ok(plan) => replay_plan(plan, acts, out),
        Err(fault) => fault_line(out, &fault),
    }
}
