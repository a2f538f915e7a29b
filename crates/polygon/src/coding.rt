//! Codes: writing the current one, and going to the triangulation of a row of bytes.
ghost use Rattle.std.specs.Prelude.{◌≡◌, ℕ, ◌*◌, ◌<◌};
ghost use Rattle.digits.specs.Bits.{bit};
ghost use Rattle.pairs.specs.Pairs.{pair_count};
ghost use Rattle.polygon.specs.Rows.{Tied, fits, set_of, end_of};
ghost use Rattle.triangulations.specs.Codes.{members, byte_of, code_of};
ghost use Rattle.triangulations.specs.Search.{every};

use super::chord::Chord;
use super::outline::Outline;
use super::rows::Rows;
use super::subject::Polygon;
use oracle::coded::Coded;
use oracle::walking::Walking;
use pairs::{PAIRS, corners, pair_total};
use refusals::Refusal;

// The bytes of a code, and their digits: one for each pair, and four more that are 0.
const BYTES: usize = 35;

const DIGITS: usize = 8 * BYTES;

// The digit of pair e in a row of bytes.
fn digit(row: &[u8; BYTES], e: usize) -> u8
    requires { e < DIGITS }
    ensures { result ≡ members row.now e }
{
    (row[e / 8] >> (e % 8)) & 1
}

impl Outline {
    // The rows of the sides and of the diagonals in a row of bytes.
    fn gathered(self, row: &[u8; BYTES]) -> Rows
        ensures { Tied self.n (members row.now) result.0 }
    {
        let mut rows = self.side_rows();
        for e in 0..PAIRS {
            let line = Chord::at(e);
            if self.is_diagonal(line) && digit(row, e) == 1 {
                rows.switch(line);
            }
        }
        rows
    }

    // Whether pair e is in the row of bytes exactly if it is a diagonal that no edge crosses.
    fn fits_at(self, row: &[u8; BYTES], rows: &Rows, e: usize) -> bool
        requires { e < DIGITS }
        ensures { result ≡ fits self.n row.now rows.now.0 e }
    {
        let line = Chord::at(e);
        let fits = self.is_diagonal(line) && rows.is_free(line);
        digit(row, e) == fits as u8
    }

    // Whether each pair fits.
    fn all_fit(self, row: &[u8; BYTES], rows: &Rows) -> bool
        ensures { result ≡ every DIGITS (fits self.n row.now rows.now.0) }
    {
        (0..DIGITS).all(|e| self.fits_at(row, rows, e))
    }
}

impl Polygon {
    // The corners below b that a diagonal joins to b: digit a is 1 if pair (a, b) is in the current set.
    fn ends(&self, b: u32) -> u32
        requires positive { 0 < b }
        requires within { b < self.now.outline.n }
        ensures { (a : ℕ) → bit result a ≡ end_of self.now.outline.n self.now.rows.0 b a }
    {
        // the side to b - 1 is left out, and that from 0 to n - 1
        let sides = if b + 1 == self.outline.n { 2 } else { 1 };
        self.rows.0[b as usize] & ((1u32 << (b - 1)) - sides)
    }

    // Byte k of the current code, if it has pairs of the polygon. The pairs of one second corner have
    // numbers in a row, so that their digits stand together.
    fn byte(&self, k: usize) -> u8
        requires { 8 * k < pair_count self.now.outline.n }
        ensures { result ≡ byte_of (set_of self.now.outline.n self.now.rows.0) k }
    {
        let (a, b) = corners(8 * k);
        let mut digits = self.ends(b) >> a;
        let mut read = b - a;
        for next in b + 1..self.outline.n {
            if read >= 8 {
                break;
            }
            digits |= self.ends(next) << read;
            read += next;
        }
        (digits % 256) as u8
    }

    // The current code. The pairs of the polygon have the lowest numbers: no byte after theirs has a digit.
    fn code(&self) -> [u8; BYTES]
        ensures { result ≡ code_of (set_of self.now.outline.n self.now.rows.0) }
    {
        let mut bytes = [0u8; BYTES];
        // by index, since after an adapter of iter_mut nothing is known of the bytes, and with array::from_fn a
        // listing takes 4% more instructions
        for k in 0..pair_total(self.outline.n).div_ceil(8) {
            bytes[k] = self.byte(k);
        }
        bytes
    }
}

impl Coded for Polygon {
    fn size(&self) -> usize {
        BYTES
    }

    fn put(&self, buffer: &mut [u8]) -> Result<(), Refusal> {
        // as in the other writers of codes and blocks: one function over the size would be no shorter
        let head = buffer.first_chunk_mut().ok_or(Refusal::BufferShort)?;
        *head = self.code();
        Ok(())
    }

    fn take(&mut self, row: &[u8]) -> Result<(), Refusal> {
        let row = row.as_array().ok_or(Refusal::NotACode)?;
        let rows = self.outline.gathered(row);
        if !self.outline.all_fit(row, &rows) {
            return Err(Refusal::NotACode);
        }
        self.rows = rows;
        Ok(())
    }
}
