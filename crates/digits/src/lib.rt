// Words of 64 binary digits: one digit read, set and turned.
#![tactic(auto)]

ghost use Rattle.std.specs.Prelude.{◌≡◌, ◌==◌};
ghost use Rattle.digits.specs.Bits.{bit, with_digit, flip_digit};

// Digit i of s; past 63 a word has only zeros.
fn digit(s: u64, i: u32) -> u64
    ensures { result ≡ bit s i }
{
    s.unbounded_shr(i) & 1
}

// Whether digit i of s is 1.
pub fn has(s: u64, i: u32) -> bool
    ensures { result ≡ (bit s i == 1) }
{
    digit(s, i) == 1
}

// s with digit i set; past 63 there is none to set.
pub fn with(s: u64, i: u32) -> u64
    ensures { result ≡ with_digit s i }
{
    s | 1u64.unbounded_shl(i)
}

// s with digit i turned from 0 to 1 or from 1 to 0; past 63 there is none to turn.
pub fn flip(s: u64, i: u32) -> u64
    ensures { result ≡ flip_digit s i }
{
    s ^ 1u64.unbounded_shl(i)
}
