//! Which masks are objects, and which member can leave one.
ghost use Rattle.std.specs.Prelude.{◌≡◌, ◌^◌, ◌<◌, true, nat_lt};
ghost use Rattle.connected.specs.Sets.{turned as flipped, is_set, set_home};

use super::flood::joins;
use super::subject::Regions;
use super::turning::{stays_set, turned};
use maps::Map;

// Whether no member has the number n or a greater one.
fn within(set: u64, n: u32) -> bool
    ensures { result ≡ nat_lt set (2 ^ n) }
{
    set.unbounded_shr(n) == 0
}

// Whether the mask is an object: a connected set of the map's regions.
pub(crate) fn is_set(map: &Map, set: u64) -> bool
    ensures { result ≡ is_set map.now.n map.now.rows set }
{
    within(set, map.regions()) && joins(map, set, set)
}

impl Regions {
    // Whether turning a region of the current set leads to an object; the set that the last step left is
    // known to be an object.
    pub(crate) fn leads_on(&self, region: u32) -> bool
        requires { region < self.now.map.n }
        ensures { result ≡ is_set self.now.map.n self.now.map.rows (flipped self.now.set region) }
    {
        turned(self.set, region) == self.left || stays_set(&self.map, self.set, region)
    }
}

// The smallest member whose removal leaves an object: members are tried in ascending order. The map and an
// object of it are two arguments: only this function and `stays_set` are given both.
pub(crate) fn first_to_leave(map: &Map, set: u64) -> Option<usize>
    requires { is_set map.now.n map.now.rows set ≡ true }
    ensures { result ≡ set_home map.now.n map.now.rows set }
{
    let mut rest = set;
    while rest != 0 {
        let member = rest.trailing_zeros();
        if stays_set(map, set, member) {
            return Some(member as usize);
        }
        rest &= rest - 1;
    }
    None
}
