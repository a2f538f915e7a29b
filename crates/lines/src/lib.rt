//! The lines that a program prints, written at the end of a buffer.
//! A line is written whole or not at all, and always where the buffer has the room.
#![tactic(auto)]

ghost use Rattle.std.specs.Prelude.{◌≡◌, ◌≤◌, length, if◌then◌else◌, codes};
ghost use Rattle.lines.specs.Appended.{Line};
ghost use Rattle.lines.specs.Texts.{counts_room, counts_text, fault_room, fault_text, hex_room, hex_text, last_room, last_text, number_room, number_text, object_room, object_text, refused_room, refused_text};

use crate::hex::{put_hex, reserve_hex};
use crate::parts::{put, put_number};
use sheets::Fault;
use std::alloc::AllocError;

mod hex;
mod parts;
pub mod verdict;
pub mod writing;

// The line of an object: its rank, and its code in small hexadecimal. In line, so that LLVM sees the
// buffer's own fields and writes many digits at once: else a listing takes a sixth more instructions.
#[inline(always)]
pub fn object_line(out: &mut Vec<u8>, rank: u32, code: &[u8]) -> Result<(), AllocError>
    ensures { Line out.old result out.new (object_text rank code.now) (object_room (length code.now)) }
{
    // ten digits of the rank at most, a space and the end of the line
    reserve_hex(out, code, 12)?;
    put_number(out, u64::from(rank));
    out.push_reserved(b' ');
    put_hex(out, code);
    out.push_reserved(b'\n');
    Ok(())
}

// The last line: whether the list is whole, the objects printed and the steps.
pub fn last_line(out: &mut Vec<u8>, whole: bool, printed: u32, steps: u64) -> Result<(), AllocError>
    ensures { Line out.old result out.new (last_text whole printed steps) last_room }
{
    // words of six and seven bytes, ten digits, twenty digits at most, and the end of the line
    out.reserve(44)?;
    put(out, opening(whole).as_bytes());
    put_number(out, u64::from(printed));
    put(out, b" steps ");
    put_number(out, steps);
    out.push_reserved(b'\n');
    Ok(())
}

// How the last line begins.
fn opening(whole: bool) -> &'static str
    ensures bytes { result.now ≡ (if whole then codes "whole " else codes "open ") }
    ensures short { length result.now ≤ 6 }
{
    if whole { "whole " } else { "open " }
}

// The line for a fault of a sheet, with its number, line and layer.
pub fn fault_line(out: &mut Vec<u8>, fault: &Fault) -> Result<(), AllocError>
    ensures { Line out.old result out.new (fault_text fault.now) fault_room }
{
    // words of six, six and seven bytes, three digits, ten and three at most, and the end of the line
    out.reserve(36)?;
    put(out, b"fault ");
    put_number(out, u64::from(fault.number()));
    put(out, b" line ");
    put_number(out, u64::from(fault.line));
    put(out, b" layer ");
    put_number(out, u64::from(fault.layer()));
    out.push_reserved(b'\n');
    Ok(())
}

// A number as a line.
pub fn number_line(out: &mut Vec<u8>, number: u64) -> Result<(), AllocError>
    ensures { Line out.old result out.new (number_text number) number_room }
{
    // twenty digits at most, and the end of the line
    out.reserve(21)?;
    put_number(out, number);
    out.push_reserved(b'\n');
    Ok(())
}

// The two numbers of a tally, as a line.
pub fn counts_line(out: &mut Vec<u8>, objects: u64, steps: u64) -> Result<(), AllocError>
    ensures { Line out.old result out.new (counts_text objects steps) counts_room }
{
    // twenty digits each at most, a space and the end of the line
    out.reserve(42)?;
    put_number(out, objects);
    out.push_reserved(b' ');
    put_number(out, steps);
    out.push_reserved(b'\n');
    Ok(())
}

// The line of an act that was refused, with the refusal's number.
pub fn refused_line(out: &mut Vec<u8>, number: u8) -> Result<(), AllocError>
    ensures { Line out.old result out.new (refused_text number) refused_room }
{
    // a word of eight bytes, three digits at most, and the end of the line
    out.reserve(12)?;
    put(out, b"refused ");
    put_number(out, u64::from(number));
    out.push_reserved(b'\n');
    Ok(())
}

// Bytes in small hexadecimal, as a line.
pub fn hex_line(out: &mut Vec<u8>, bytes: &[u8]) -> Result<(), AllocError>
    ensures { Line out.old result out.new (hex_text bytes.now) (hex_room (length bytes.now)) }
{
    reserve_hex(out, bytes, 1)?;
    put_hex(out, bytes);
    out.push_reserved(b'\n');
    Ok(())
}
