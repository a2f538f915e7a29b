//! Whole censuses, and what their tallies say.
use engine::census::Census;
use engine::tally::Tally;
use oracle::walking::Walking;

// More than any total that is asked for here.
const LIMIT: u32 = 1_000_000;

// The tally of a census at its end, or none if the end is not reached within the limit.
pub(crate) fn total<O: Walking + Drop>(oracle: O) -> Option<Tally>
    requires { O.Walking.sound oracle }
{
    let mut census = Census::new(oracle);
    'objects: for _ in 0..LIMIT {
        if let Ok(None) = census.next() {
            return Some(census.tally());
        }
    }
    None
}

// The filled slots of all triangulations of n corners together: of N objects with D slots each, F of
// them filled, the steps are N × D + F, and D is n(n − 1)/2.
pub(crate) fn filled(tally: Tally, n: u64) -> Option<u64> {
    let width = n.checked_mul(n.checked_sub(1)?)? / 2;
    tally.steps.checked_sub(tally.objects.checked_mul(width)?)
}
