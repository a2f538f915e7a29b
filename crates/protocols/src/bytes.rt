//! Bytes as hexadecimal digits.
ghost use Rattle.std.specs.Prelude.{◌≡◌, ◌+◌, ◌*◌, ◌<◌, IfOk};
ghost use Rattle.std.specs.Option.{option_map};
ghost use Rattle.protocols.specs.Values.{is_hex, hex_value, all_hex, in_pairs, bytes_of, bytes_at, of_length};
ghost use Rattle.protocols.specs.Views.{bytes_in};

use std::alloc::{AllocError, Global};

// 0 to 9, and a to f.
fn is_digit(byte: u8) -> bool
    ensures { result ≡ is_hex byte }
{
    matches!(byte, b'0'..=b'9' | b'a'..=b'f')
}

fn are_digits(bytes: &[u8]) -> bool
    ensures { result ≡ all_hex bytes.now }
{
    bytes.iter().all(|b| is_digit(*b))
}

// Whether there are digits, an even number of them.
fn are_pairs(bytes: &[u8]) -> bool
    ensures { result ≡ in_pairs bytes.now }
{
    !bytes.is_empty() && bytes.len() % 2 == 0 && are_digits(bytes)
}

// The digits of the bytes on a line, none of them behind a hyphen.
pub(crate) fn digits_in(bytes: &[u8]) -> Option<&[u8]>
    ensures { option_map bytes_in result ≡ bytes_at bytes.now }
{
    match bytes {
        b"-" => Some(&[]),
        _ if are_pairs(bytes) => Some(bytes),
        _ => None,
    }
}

// What a digit stands for; any other byte for 0. The library's `to_digit` takes capitals for digits. It is 0 and
// no Option: a request that no line gave may hold any byte, and its call fails only for want of memory.
fn digit_value(byte: u8) -> u8
    ensures value { result ≡ hex_value byte }
    ensures small { result < 16 }
{
    match byte {
        b'0'..=b'9' => byte - b'0',
        b'a'..=b'f' => byte - b'a' + 10,
        _ => 0,
    }
}

fn byte_value(high: u8, low: u8) -> u8
    ensures { result ≡ hex_value high * 16 + hex_value low }
{
    digit_value(high) * 16 + digit_value(low)
}

// A byte for each two digits.
pub(crate) fn decode(heap: Global, digits: &[u8]) -> Result<Vec<u8>, AllocError>
    ensures { IfOk result (λ v. v.items ≡ bytes_of digits.now) }
{
    let mut bytes = Vec::new(heap);
    let mut rest = digits;
    while let [high, low, tail @ ..] = rest {
        bytes.push(byte_value(*high, *low))?;
        rest = tail;
    }
    Ok(bytes)
}

// The bytes that digits stand for, if they are so many.
pub fn array_of<const N: usize>(digits: &[u8]) -> Option<[u8; N]>
    ensures { result ≡ of_length N (bytes_of digits.now) }
{
    if digits.len() / 2 != N {
        return None;
    }
    let mut bytes = [0; N];
    for place in 0..N {
        bytes[place] = byte_value(digits[2 * place], digits[2 * place + 1]);
    }
    Some(bytes)
}
