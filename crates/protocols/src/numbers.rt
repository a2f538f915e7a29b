//! Decimal numbers.
ghost use Rattle.std.specs.Prelude.{◌≡◌};
ghost use Rattle.protocols.specs.Requests.{most_size, most_job};
ghost use Rattle.protocols.specs.Values.{number_at};

use items::number;

// The most digits of a number.
const DIGITS: usize = 10;

// The largest buffer.
pub const MOST_SIZE: usize = 65_536;

// The size of a buffer.
#[tactic(auto, unfolding(crate::specs::Values::number_at))]
pub(crate) fn size_in(bytes: &[u8]) -> Option<usize>
    ensures { result ≡ number_at most_size bytes.now }
{
    let size = number::<DIGITS>(bytes)?;
    if size > MOST_SIZE as u64 {
        None
    } else {
        Some(size as usize)
    }
}

// A job number, which is any of 32 bits.
#[tactic(auto, unfolding(crate::specs::Values::number_at))]
pub(crate) fn job_in(bytes: &[u8]) -> Option<u32>
    ensures { result ≡ number_at most_job bytes.now }
{
    u32::try_from(number::<DIGITS>(bytes)?).ok()
}
