//! Bytes in small hexadecimal.
ghost use Rattle.std.specs.Prelude.{◌≡◌, ◌+◌, ◌*◌, ◌/◌, ◌%◌, ◌<◌, ◌≤◌, [], ◌∷◌, length, IsOk, OnOk, vec_len, vec_capacity};
ghost use Rattle.lines.specs.Appended.{Appended, HasRoom};
ghost use Rattle.lines.specs.Texts.{hex_digit, hexed};

use std::alloc::AllocError;

// The digit of a number below 16.
fn hex_digit(d: u8) -> u8
    requires { d < 16 }
    ensures { result ≡ hex_digit d }
{
    char::from_digit(u32::from(d), 16).unwrap() as u8
}

// The two digits of a byte.
fn put_byte(out: &mut Vec<u8>, byte: u8)
    requires { HasRoom out.old 2 }
    ensures { Appended out.old out.new (hex_digit (byte / 16) ∷ hex_digit (byte % 16) ∷ []) }
{
    out.push_reserved(hex_digit(byte / 16));
    out.push_reserved(hex_digit(byte % 16));
}

// The digits of each byte in turn.
pub(crate) fn put_hex(out: &mut Vec<u8>, bytes: &[u8])
    requires { HasRoom out.old (2 * length bytes.now) }
    ensures appended { Appended out.old out.new (hexed bytes.now) }
    ensures len { vec_len out.new ≡ vec_len out.old + 2 * length bytes.now }
{
    for byte in bytes {
        put_byte(out, *byte);
    }
}

// Room for the digits of some bytes and for a few bytes more.
pub(crate) fn reserve_hex(out: &mut Vec<u8>, bytes: &[u8], more: usize) -> Result<(), AllocError>
    ensures items { out.new.items ≡ out.old.items }
    ensures room { OnOk result (HasRoom out.new (2 * length bytes.now + more)) }
    ensures capacity { vec_capacity out.old ≤ vec_capacity out.new }
    ensures succeeds { HasRoom out.old (2 * length bytes.now + more) → IsOk result }
{
    // the sum below would not fit, and no capacity is so large
    if bytes.len() > (usize::MAX - more) / 2 {
        return Err(AllocError);
    }
    out.reserve(2 * bytes.len() + more)
}
