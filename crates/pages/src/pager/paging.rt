//! Pages of a listing.
ghost use Rattle.std.specs.Prelude.{◌≡◌, ◌+◌, ◌≤◌, true, is_ok, vec_len, vec_capacity};
ghost use Rattle.pages.specs.Left.{left};
ghost use Rattle.pages.specs.Lines.{page_room};
ghost use Rattle.pages.specs.Turns.{Filled, Paged};

use crate::pager::Pager;
use oracle::coded::Coded;
use std::alloc::AllocError;

impl<O: Coded> Pager<O> {
    // Appends the next lines, at most so many.
    fn fill(&mut self, out: &mut Vec<u8>, limit: usize) -> Result<(), AllocError>
        ensures setup { O.Walking.setup self.new.census.oracle ≡ O.Walking.setup self.old.census.oracle }
        ensures filled { Filled limit out.old.items (left O.Walking.setup self.old) result (out.new.items, left O.Walking.setup self.new) self.new.done }
        ensures capacity { vec_capacity out.old ≤ vec_capacity out.new }
        ensures succeeds { vec_len out.old + page_room (O.Walking.setup self.old.census.oracle) limit (left O.Walking.setup self.old) ≤ vec_capacity out.old → is_ok result ≡ true }
    {
        'lines: for _ in 0..limit {
            if self.done {
                break;
            }
            self.turn(out)?;
        }
        Ok(())
    }

    // Appends the next lines, at most so many, and says whether the last one is written.
    pub fn page(&mut self, out: &mut Vec<u8>, limit: usize) -> Result<bool, AllocError>
        ensures setup { O.Walking.setup self.new.census.oracle ≡ O.Walking.setup self.old.census.oracle }
        ensures paged { Paged limit out.old.items (left O.Walking.setup self.old) result (out.new.items, left O.Walking.setup self.new) }
        ensures capacity { vec_capacity out.old ≤ vec_capacity out.new }
        ensures succeeds { vec_len out.old + page_room (O.Walking.setup self.old.census.oracle) limit (left O.Walking.setup self.old) ≤ vec_capacity out.old → is_ok result ≡ true }
    {
        self.fill(out, limit)?;
        Ok(self.done)
    }
}
