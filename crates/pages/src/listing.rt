//! All lines of a listing at once.
ghost use Rattle.std.specs.Prelude.{◌≡◌, ◌+◌, ◌≤◌, true, is_ok, vec_len, vec_capacity};
ghost use Rattle.pages.specs.Left.{left};
ghost use Rattle.pages.specs.Lines.{all_lines, list_room, rest_room};
ghost use Rattle.pages.specs.Turns.{Listed};

use crate::pager::Pager;
use oracle::coded::Coded;
use std::alloc::AllocError;

// Appends the lines left of a listing, page by page until it is done.
pub fn list_rest<O: Coded + Drop>(
    mut pager: Pager<O>,
    limit: usize,
    out: &mut Vec<u8>,
) -> Result<(), AllocError>
    ensures listed { Listed out.old.items (left O.Walking.setup pager) result out.new.items }
    ensures capacity { vec_capacity out.old ≤ vec_capacity out.new }
    ensures succeeds { vec_len out.old + rest_room (O.Walking.setup pager.census.oracle) (left O.Walking.setup pager) ≤ vec_capacity out.old → is_ok result ≡ true }
{
    // a page without lines would get nowhere
    let lines = limit.max(1);
    'pages: loop {
        if pager.page(out, lines)? {
            return Ok(());
        }
    }
}

// Appends all lines of at most so many objects.
pub fn list_all<O: Coded + Drop>(
    oracle: O,
    most: u32,
    limit: usize,
    out: &mut Vec<u8>,
) -> Result<(), AllocError>
    requires { O.Walking.sound oracle }
    ensures listed { Listed out.old.items (all_lines (O.Walking.setup oracle) most) result out.new.items }
    ensures succeeds { vec_len out.old + list_room (O.Walking.setup oracle) most ≤ vec_capacity out.old → is_ok result ≡ true }
{
    list_rest(Pager::new(oracle, most), limit, out)
}
