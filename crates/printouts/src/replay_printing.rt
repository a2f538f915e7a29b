//! A replay, from two readers to a writer.
ghost use Rattle.std.specs.Prelude.{◌+◌, IfSome, OnOk};
ghost use Rattle.std.specs.Io.KnownBytes.{Consumes, IsAtEnd};
ghost use Rattle.lines.specs.Written.{Written};
ghost use Rattle.sheets.specs.Reading.{enough, most_bytes};
ghost use Rattle.sheets.specs.Taking.{TakesUpTo};
ghost use Rattle.printouts.specs.Printed.{replay_text};

use crate::replaying::replay_sheet;
use lines::writing::write_flushed;
use sheets::sheet_bytes;
use std::alloc::Global;
use std::io;
use std::io::{Read, Write};

// Reads a sheet, and a protocol to its end, and writes the lines of the protocol over the census that the sheet
// asks for.
pub fn print_replay<R: Read, A: Read, W: Write>(
    heap: Global,
    sheet: &mut R,
    acts: &mut A,
    writer: &mut W,
) -> io::Result<()>
    ensures printed { IfSome (R.remaining sheet.old) (λ xs. IfSome (A.remaining acts.old) (λ ys. Written (W.contents writer.old) (W.contents writer.new) result (replay_text xs ys))) }
    ensures rest { OnOk result (IfSome (R.remaining sheet.old) (λ xs. Consumes (R.remaining sheet.old) (R.remaining sheet.new) (enough xs))) }
    ensures taken { TakesUpTo (most_bytes + 1) (R.remaining sheet.old) (R.remaining sheet.new) }
    ensures end { OnOk result (IsAtEnd (A.remaining acts.new)) }
{
    let plan = sheet_bytes(heap, sheet)?;
    let mut orders = Vec::new(heap);
    acts.read_to_end(&mut orders)?;
    let mut lines = Vec::new(heap);
    replay_sheet(plan.as_slice(), orders.as_slice(), &mut lines)?;
    write_flushed(writer, lines.as_slice())
}
