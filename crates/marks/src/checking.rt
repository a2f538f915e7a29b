//! The check of a block, and its filling.
ghost use Rattle.std.specs.Prelude.{◌≡◌, take};
ghost use Rattle.marks.specs.Layout.{check};
ghost use Rattle.marks.specs.Opening.{all_zero};

// A block, and what its check is taken over.
pub(crate) const BLOCK: usize = 512;

pub(crate) const BODY: usize = 508;

// The check of a block: each byte before it times its place counted from 1, added up and reduced.
pub(crate) fn check_of(block: &[u8; BLOCK]) -> u32
    ensures { result ≡ check (take 508 block.now) }
{
    let mut sum: u32 = 0;
    let body = &block[..BODY];
    for (index, byte) in body.iter().enumerate() {
        sum += (index as u32 + 1) * u32::from(*byte);
    }
    sum % 65521
}

pub(crate) fn all_zero(bytes: &[u8]) -> bool
    ensures { result ≡ all_zero bytes.now }
{
    bytes.iter().all(|byte| *byte == 0)
}
