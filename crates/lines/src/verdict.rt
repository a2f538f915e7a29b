//! What is said of a sheet: what it asks for, or its fault.
ghost use Rattle.std.specs.Prelude.{◌+◌, ◌≤◌, ◌++◌, decimal, length, IfSome, OnOk};
ghost use Rattle.std.specs.Io.KnownBytes.{Consumes};
ghost use Rattle.sheets.specs.Reading.{enough, most_bytes};
ghost use Rattle.sheets.specs.Taking.{TakesUpTo};
ghost use Rattle.sheets.specs.Views.{plan_of, subject_of};
ghost use Rattle.lines.specs.Appended.{Appended, HasRoom, Line};
ghost use Rattle.lines.specs.Texts.{plan_room, plan_text, subject_room, subject_text, verdict_on, verdict_room};
ghost use Rattle.lines.specs.Written.{Written};

use crate::fault_line;
use crate::parts::{put, put_number};
use crate::writing::write_flushed;
use sheets::{Plan, Subject, read_sheet, sheet_bytes};
use std::alloc::{AllocError, Global};
use std::io;
use std::io::{Read, Write};

// A word, and a number behind it.
fn put_counted(out: &mut Vec<u8>, word: &[u8], number: u32)
    requires { HasRoom out.old (length word.now + 10) }
    ensures written { Appended out.old out.new (word.now ++ decimal number) }
    ensures short { length (decimal number) ≤ 10 }
{
    put(out, word);
    put_number(out, u64::from(number));
}

// The letter, and the number of regions or corners.
fn put_subject(out: &mut Vec<u8>, subject: &Subject)
    requires { HasRoom out.old subject_room }
    ensures written { Appended out.old out.new (subject_text (subject_of subject.now)) }
    ensures short { length (subject_text (subject_of subject.now)) ≤ subject_room }
{
    match subject {
        Subject::Regions(map) => put_counted(out, b"R ", map.regions()),
        Subject::Polygon(n) => put_counted(out, b"P ", *n),
    }
}

// The line for a sheet that is accepted.
pub fn plan_line(out: &mut Vec<u8>, plan: &Plan) -> Result<(), AllocError>
    ensures { Line out.old result out.new (plan_text (plan_of plan.now)) plan_room }
{
    // words of nine, seven, five and six bytes, twelve bytes of the subject, ten digits each at most, and the
    // end of the line
    out.reserve(70)?;
    put(out, b"accepted ");
    put_subject(out, &plan.subject);
    put_counted(out, b" pairs ", plan.subject.pairs());
    put_counted(out, b" cap ", plan.cap);
    put_counted(out, b" most ", plan.most);
    out.push_reserved(b'\n');
    Ok(())
}

// The line for the bytes of a sheet.
pub fn verdict_line(out: &mut Vec<u8>, sheet: &[u8]) -> Result<(), AllocError>
    ensures { Line out.old result out.new (verdict_on sheet.now) verdict_room }
{
    match read_sheet(sheet) {
        Ok(plan) => plan_line(out, &plan),
        Err(fault) => fault_line(out, &fault),
    }
}

// Reads a sheet and writes the line for it.
pub fn print_verdict<R: Read, W: Write>(
    heap: Global,
    reader: &mut R,
    writer: &mut W,
) -> io::Result<()>
    ensures printed { IfSome (R.remaining reader.old) (λ xs. Written (W.contents writer.old) (W.contents writer.new) result (verdict_on xs)) }
    ensures rest { OnOk result (IfSome (R.remaining reader.old) (λ xs. Consumes (R.remaining reader.old) (R.remaining reader.new) (enough xs))) }
    ensures taken { TakesUpTo (most_bytes + 1) (R.remaining reader.old) (R.remaining reader.new) }
{
    let sheet = sheet_bytes(heap, reader)?;
    let mut line = Vec::new(heap);
    verdict_line(&mut line, sheet.as_slice())?;
    write_flushed(writer, line.as_slice())
}
