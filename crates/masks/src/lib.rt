//! Sets as masks of 64 digits, and their codes of 8 bytes.
#![tactic(auto)]

ghost use Rattle.std.specs.Prelude.{◌≡◌, ℕ, ◌^◌, ◌<◌, true, List};
ghost use Rattle.std.specs.List.{AllByRecursion};
ghost use Rattle.digits.specs.Bits.{bit};
ghost use Rattle.oracle.specs.Laws.{Lawful};
ghost use Rattle.masks.specs.Codes.{code, number, is_code, row_digit, read_code, written_code};
ghost use Rattle.masks.specs.Family.{Family, FamilyLaws, coded};

use refusals::Refusal;

// How many bytes a code has.
pub const CODE_SIZE: usize = 8;

// The mask that a row of bytes is the code of.
pub fn read_code(row: &[u8]) -> Option<u64>
    ensures { result ≡ read_code row.now }
{
    let code = row.as_array::<CODE_SIZE>()?;
    Some(u64::from_le_bytes(*code))
}

// Writes a mask's code to the front of the buffer; the bytes beyond stay as found.
pub fn write_code(set: u64, buffer: &mut [u8]) -> Result<(), Refusal>
    ensures { (result, buffer.new) ≡ written_code set buffer.old }
{
    // as in the other writers of codes and blocks: one function over the size would be no shorter
    let front = buffer.first_chunk_mut().ok_or(Refusal::BufferShort)?;
    *front = set.to_le_bytes();
    Ok(())
}

// Every family of masks that keeps the laws gives a lawful set-up on codes. Digit i of the number that a row
// of bytes writes is digit i mod 8 of byte i / 8, and the code of a number is a row of 8 bytes that writes it.
pub fn masks_stand()
    ensures laws { (f : Family) → FamilyLaws f → Lawful (coded f) }
    ensures digits { (row : List ℕ) → AllByRecursion (λ b. b < 256) row → (i : ℕ) → bit (number row) i ≡ row_digit row i }
    ensures codes { (s : ℕ) → s < 2 ^ 64 → (is_code (code s) ≡ true) × (number (code s) ≡ s) }
{}
