//! Parts of a line.
ghost use Rattle.std.specs.Prelude.{◌≡◌};
ghost use Rattle.std.specs.Option.{option_map};
ghost use Rattle.protocols.specs.Reading.{place_of, parted};
ghost use Rattle.protocols.specs.Views.{both};

// Where the byte stands first; none where it does not stand.
fn find(byte: u8, bytes: &[u8]) -> Option<usize>
    ensures { result ≡ place_of byte bytes.now }
{
    bytes.iter().position(|b| *b == byte)
}

// What stands before the first such byte, and what stands behind it.
pub(crate) fn part(byte: u8, bytes: &[u8]) -> Option<(&[u8], &[u8])>
    ensures { option_map both result ≡ parted byte bytes.now }
{
    let n = find(byte, bytes)?;
    Some((&bytes[..n], &bytes[n + 1..]))
}
