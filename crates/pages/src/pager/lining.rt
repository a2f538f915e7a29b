//! One line of a listing.
ghost use Rattle.std.specs.Prelude.{◌≡◌, ◌+◌, ◌<◌, ◌≤◌, true, false, ◌++◌, is_ok, if◌then◌else◌, Some, None, vec_len, vec_capacity};
ghost use Rattle.lines.specs.Appended.{Line};
ghost use Rattle.oracle.specs.Places.{at};
ghost use Rattle.pages.specs.Due.{due_rank};
ghost use Rattle.pages.specs.Left.{Lined};
ghost use Rattle.pages.specs.Lines.{is_printed, line_room, spot_line};

use crate::pager::Pager;
use lines::{last_line, object_line};
use oracle::coded::{Coded, MOST_SIZE};
use std::alloc::AllocError;

// Whether an object of this rank is printed: every object is.
fn is_printed(_rank: u32) -> bool
    ensures { result ≡ is_printed _rank }
{
    true
}

fn one_more(printed: u32, most: u32) -> u32
    requires { printed < most }
    ensures { result ≡ printed + 1 }
{
    printed + 1
}

// `undone` is asked where `fill` has just looked: a type for a listing that is not done would hold the same
// fields, and be made and taken apart again at each line.
impl<O: Coded> Pager<O> {
    // The rank of the object whose turn it is; none if the last line is due.
    fn due(&self) -> Option<u32>
        ensures { result ≡ due_rank (O.Walking.setup self.now.census.oracle) self.now.census.view self.now.most self.now.printed }
    {
        if self.printed < self.most {
            self.census.rank()
        } else {
            None
        }
    }

    // Appends the line of the object that the census stands at; past the end nothing.
    pub(super) fn write_object(&self, out: &mut Vec<u8>) -> Result<(), AllocError>
        ensures { Line out.old result out.new (spot_line (O.Walking.setup self.now.census.oracle) (at (O.Walking.setup self.now.census.oracle) self.now.census.view.stand.place)) (line_room (O.Walking.setup self.now.census.oracle)) }
    {
        let Some(rank) = self.census.rank() else {
            return Ok(());
        };
        // a code is held in memory of a fixed size, with its size beside it, so that a line needs no
        // memory but that of its buffer
        let mut code = [0u8; MOST_SIZE];
        let _ = self.census.read(&mut code);
        let size = self.census.size();
        object_line(out, rank, &code[0..size])
    }

    // The object of this rank: its line if it is printed, and on to the next.
    fn pass_object(&mut self, out: &mut Vec<u8>, rank: u32) -> Result<(), AllocError>
        requires undone { self.old.done ≡ false }
        requires due { due_rank (O.Walking.setup self.old.census.oracle) self.old.census.view self.old.most self.old.printed ≡ Some rank }
        ensures { Lined O.Walking.setup self.old out.old result self.new out.new }
    {
        if is_printed(rank) {
            self.write_object(out)?;
            self.printed = one_more(self.printed, self.most);
        }
        let _ = self.census.next();
        Ok(())
    }

    // The last line, and then the listing is done.
    fn finish(&mut self, out: &mut Vec<u8>) -> Result<(), AllocError>
        requires undone { self.old.done ≡ false }
        requires due { due_rank (O.Walking.setup self.old.census.oracle) self.old.census.view self.old.most self.old.printed ≡ None }
        ensures { Lined O.Walking.setup self.old out.old result self.new out.new }
    {
        let whole = self.census.rank().is_none();
        let tally = self.census.tally();
        last_line(out, whole, self.printed, tally.steps)?;
        self.done = true;
        Ok(())
    }

    // One line more of a listing that is not done.
    pub(super) fn turn(&mut self, out: &mut Vec<u8>) -> Result<(), AllocError>
        requires undone { self.old.done ≡ false }
        ensures { Lined O.Walking.setup self.old out.old result self.new out.new }
    {
        match self.due() {
            Some(rank) => self.pass_object(out, rank),
            None => self.finish(out),
        }
    }
}
