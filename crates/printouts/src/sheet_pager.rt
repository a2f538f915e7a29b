//! The lines that are printed of a sheet, page by page, whatever it asks for.
ghost use Rattle.std.specs.Prelude.{◌≡◌, ◌+◌, ◌≤◌, true, is_ok, vec_len, vec_capacity};
ghost use Rattle.pages.specs.Lines.{WholeSteps};
ghost use Rattle.pages.specs.Turns.{PagesJoin, Paged};
ghost use Rattle.sheets.specs.Reading.{read_all};
ghost use Rattle.sheets.specs.Views.{plan_of};
ghost use Rattle.printouts.specs.Left.{sheet_left, pages_left, fault_left, SetUps};
ghost use Rattle.printouts.specs.Plans.{plan_setup, Drawable};
ghost use Rattle.printouts.specs.Printed.{plan_lines, sheet_lines, sheet_room, WholeOf};

use crate::plans::drawn;
use cap::Cap;
use lines::fault_line;
use oracle::walking::Walking;
use pages::pager::Pager;
use polygon::Polygon;
use regions::Regions;
use sheets::{Fault, Plan, Subject, read_sheet};
use std::alloc::AllocError;

// A listing of the sheet's subject under its cap, or the one line of its fault, none once that is written.
#[derive(Drop)]
pub(crate) enum Pages {
    Regions(Pager<Cap<Regions>>),
    Polygon(Pager<Cap<Polygon>>),
    Fault(Option<Fault>),
}

// What is left to print of the bytes of a sheet.
#[derive(Drop)]
pub struct SheetPager {
    pub(crate) pages: Pages,
}

impl SheetPager {
    // The first line that is printed of the bytes of a sheet.
    pub fn of_sheet(sheet: &[u8]) -> SheetPager
        ensures lines { sheet_left result ≡ sheet_lines sheet.now }
        ensures whole { WholeOf (read_all sheet.now) }
        ensures pages { PagesJoin (sheet_lines sheet.now) }
        ensures set_ups { SetUps ⟦<Cap<Regions> as Walking>⟧.setup ⟦<Cap<Polygon> as Walking>⟧.setup }
    {
        match read_sheet(sheet) {
            Ok(plan) => SheetPager {
                pages: Pages::of_plan(plan),
            },
            Err(fault) => SheetPager {
                pages: Pages::Fault(Some(fault)),
            },
        }
    }

    // Appends the next lines, at most so many, and says whether the last one is written.
    pub fn page(&mut self, out: &mut Vec<u8>, limit: usize) -> Result<bool, AllocError>
        ensures paged { Paged limit out.old.items (sheet_left self.old) result (out.new.items, sheet_left self.new) }
        ensures capacity { vec_capacity out.old ≤ vec_capacity out.new }
        ensures succeeds { vec_len out.old + sheet_room limit (sheet_left self.old) ≤ vec_capacity out.old → is_ok result ≡ true }
    {
        match &mut self.pages {
            Pages::Regions(pager) => pager.page(out, limit),
            Pages::Polygon(pager) => pager.page(out, limit),
            Pages::Fault(fault) => fault_page(fault, out, limit),
        }
    }
}

impl Pages {
    fn of_plan(plan: Plan) -> Pages
        requires { Drawable (plan_of plan).topic }
        ensures lines { pages_left result ≡ plan_lines (plan_of plan) }
        ensures whole { WholeSteps (plan_setup (plan_of plan)) plan.most }
    {
        let Plan { subject, cap, most } = plan;
        match subject {
            Subject::Regions(map) => {
                Pages::Regions(Pager::new(Cap::new(Regions::new(&map), cap), most))
            }
            Subject::Polygon(n) => Pages::Polygon(Pager::new(Cap::new(drawn(n), cap), most)),
        }
    }
}

// The line of a fault, where a page has room for a line and it is not written yet.
fn fault_page(
    fault: &mut Option<Fault>,
    out: &mut Vec<u8>,
    limit: usize,
) -> Result<bool, AllocError>
    ensures paged { Paged limit out.old.items (fault_left fault.old) result (out.new.items, fault_left fault.new) }
    ensures capacity { vec_capacity out.old ≤ vec_capacity out.new }
    ensures succeeds { vec_len out.old + sheet_room limit (fault_left fault.old) ≤ vec_capacity out.old → is_ok result ≡ true }
{
    let Some(pending) = fault else {
        return Ok(true);
    };
    if limit == 0 {
        return Ok(false);
    }
    fault_line(out, pending)?;
    *fault = None;
    Ok(true)
}
