//! The parts of a line, written where the buffer has the room.
ghost use Rattle.std.specs.Prelude.{length, decimal};
ghost use Rattle.lines.specs.Appended.{Appended, HasRoom};

// Bytes as they stand.
pub(crate) fn put(out: &mut Vec<u8>, text: &[u8])
    requires { HasRoom out.old (length text.now) }
    ensures { Appended out.old out.new text.now }
{
    out.extend_from_slice(text).unwrap();
}

// A number in decimal, the front digits first. The crate itoa writes into a buffer of its own, and with
// the copy from there a listing takes 1% more instructions.
pub(crate) fn put_number(out: &mut Vec<u8>, number: u64)
    requires { HasRoom out.old (length (decimal number)) }
    ensures { Appended out.old out.new (decimal number) }
{
    if number < 10 {
        out.push_reserved(b'0' + number as u8);
        return;
    }
    put_number(out, number / 10);
    out.push_reserved(b'0' + (number % 10) as u8);
}
