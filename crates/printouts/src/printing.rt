//! All that is printed of a sheet, from a reader to a writer.
ghost use Rattle.std.specs.Prelude.{◌+◌, IfSome, OnOk};
ghost use Rattle.std.specs.Io.KnownBytes.{Consumes};
ghost use Rattle.std.specs.List.{concat};
ghost use Rattle.lines.specs.Written.{Written};
ghost use Rattle.sheets.specs.Reading.{enough, most_bytes};
ghost use Rattle.sheets.specs.Taking.{TakesUpTo};
ghost use Rattle.printouts.specs.Left.{sheet_left};
ghost use Rattle.printouts.specs.Printed.{sheet_lines};

use crate::sheet_pager::SheetPager;
use lines::writing::{write_flushed, write_whole};
use sheets::sheet_bytes;
use std::alloc::Global;
use std::io;
use std::io::{Read, Write};

// Lines that are gathered before they are handed on.
const PAGE: usize = 256;

// Writes the lines left, page by page.
fn print_left<W: Write>(heap: Global, mut pager: SheetPager, writer: &mut W) -> io::Result<()>
    ensures { Written (W.contents writer.old) (W.contents writer.new) result (concat (sheet_left pager)) }
{
    let mut page = Vec::new(heap);
    'pages: loop {
        let done = pager.page(&mut page, PAGE)?;
        if done {
            return write_flushed(writer, page.as_slice());
        }
        write_whole(writer, page.as_slice())?;
        page.clear();
    }
}

// Reads a sheet and writes the lines that are printed of it.
pub fn print_sheet<R: Read, W: Write>(
    heap: Global,
    reader: &mut R,
    writer: &mut W,
) -> io::Result<()>
    ensures printed { IfSome (R.remaining reader.old) (λ xs. Written (W.contents writer.old) (W.contents writer.new) result (concat (sheet_lines xs))) }
    ensures rest { OnOk result (IfSome (R.remaining reader.old) (λ xs. Consumes (R.remaining reader.old) (R.remaining reader.new) (enough xs))) }
    ensures taken { TakesUpTo (most_bytes + 1) (R.remaining reader.old) (R.remaining reader.new) }
{
    let sheet = sheet_bytes(heap, reader)?;
    print_left(heap, SheetPager::of_sheet(sheet.as_slice()), writer)
}
