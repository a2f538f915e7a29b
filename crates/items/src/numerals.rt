ghost use Rattle.std.specs.Prelude.{◌≡◌, ◌^◌, ◌<◌, ◌≤◌, min, length, IfSome};
ghost use Rattle.items.specs.Numerals.{trim as trimmed, read_on, number_of, numeral_of, Writes};

// The most digits of a number on a sheet.
const SHEET_DIGITS: usize = 7;

// The most digits of which each number fits a word.
const WORD_DIGITS: usize = 19;

// Whether there are one to so many bytes, with a zero in front only if it stands alone.
fn is_trim(bytes: &[u8], most: usize) -> bool
    ensures { result ≡ trimmed most bytes.now }
{
    !bytes.is_empty() && bytes.len() <= most && (bytes[0] != b'0' || bytes.len() == 1)
}

// The number that the digits write; none where a byte is no digit.
fn read_digits(bytes: &[u8]) -> Option<u64>
    requires { length bytes.now ≤ 19 }
    ensures { result ≡ read_on 0 bytes.now }
{
    let mut value = 0u64;
    for b in bytes {
        if !b.is_ascii_digit() {
            return None;
        }
        value = value * 10 + u64::from(*b - b'0');
    }
    Some(value)
}

// The number that one to MOST digits write, of which 19 are the most; none where the bytes are no
// such digits.
pub fn number<const MOST: usize>(bytes: &[u8]) -> Option<u64>
    ensures value { result ≡ number_of (min MOST 19) bytes.now }
    ensures decimal { Writes (min MOST 19) bytes.now result }
    ensures within { IfSome result (λ n. n < 10 ^ min MOST 19) }
{
    let most = MOST.min(WORD_DIGITS);
    if !is_trim(bytes, most) {
        return None;
    }
    read_digits(bytes)
}

// The number that a numeral writes; none where the bytes are no numeral.
pub(crate) fn numeral(bytes: &[u8]) -> Option<u32>
    ensures { result ≡ numeral_of bytes.now }
{
    Some(number::<SHEET_DIGITS>(bytes)? as u32)
}
