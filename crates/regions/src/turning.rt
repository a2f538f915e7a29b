//! A connected set with one region put in or taken out.
ghost use Rattle.std.specs.Prelude.{◌≡◌, ◌<◌, true, not, ◌||◌, ◌==◌, bit_and};
ghost use Rattle.connected.specs.Sets.{turned as flipped, is_set};

use super::flood::joins;
use maps::Map;

// The set with one region put in if it is no member, and taken out if it is.
pub(crate) fn turned(set: u64, region: u32) -> u64
    requires { region < 64 }
    ensures { result ≡ flipped set region }
{
    set ^ (1u64 << region)
}

// Whether a region with this row can be put into a connected set: the set is empty, or it touches a member.
fn can_join(row: u64, set: u64) -> bool
    ensures { result ≡ (set == 0 || not ((bit_and row set) == 0)) }
{
    set == 0 || row & set != 0
}

// Whether turning one of its regions takes an object to an object. Taken out, it does if the members that
// the region touches are still joined.
pub(crate) fn stays_set(map: &Map, set: u64, region: u32) -> bool
    requires object { is_set map.now.n map.now.rows set ≡ true }
    requires below { region < map.now.n }
    ensures { result ≡ is_set map.now.n map.now.rows (flipped set region) }
{
    let row = map.rows()[region as usize];
    if digits::has(set, region) {
        let left = turned(set, region);
        joins(map, left, row & left)
    } else {
        can_join(row, set)
    }
}
