//! All that is printed of a sheet at once.
ghost use Rattle.std.specs.Prelude.{◌≡◌, ◌+◌, ◌≤◌, true, is_ok, vec_len, vec_capacity};
ghost use Rattle.pages.specs.Turns.{Listed};
ghost use Rattle.printouts.specs.Left.{pages_left};
ghost use Rattle.printouts.specs.Printed.{census_room, room_of_all, sheet_lines};

use crate::sheet_pager::{Pages, SheetPager};
use lines::fault_line;
use pages::listing::list_rest;
use std::alloc::AllocError;

// Appends what is printed of a sheet, in pages of so many lines.
pub fn list_sheet(sheet: &[u8], limit: usize, out: &mut Vec<u8>) -> Result<(), AllocError>
    ensures listed { Listed out.old.items (sheet_lines sheet.now) result out.new.items }
    ensures succeeds { vec_len out.old + census_room sheet.now ≤ vec_capacity out.old → is_ok result ≡ true }
{
    list_pages(SheetPager::of_sheet(sheet).pages, limit, out)
}

fn list_pages(pages: Pages, limit: usize, out: &mut Vec<u8>) -> Result<(), AllocError>
    ensures listed { Listed out.old.items (pages_left pages) result out.new.items }
    ensures succeeds { vec_len out.old + room_of_all (pages_left pages) ≤ vec_capacity out.old → is_ok result ≡ true }
{
    match pages {
        Pages::Regions(pager) => list_rest(pager, limit, out),
        Pages::Polygon(pager) => list_rest(pager, limit, out),
        Pages::Fault(Some(fault)) => fault_line(out, &fault),
        Pages::Fault(None) => Ok(()),
    }
}
