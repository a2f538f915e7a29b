//! The oracle of a map.
ghost use Rattle.std.specs.Prelude.{◌≡◌, true};
ghost use Rattle.connected.specs.Sets.{is_set};

use maps::Map;

// A map, and the current set as a mask: region i is a member where digit i is 1. The set that the last
// step left is kept, so that the step back to it need not judge it again.
#[derive(Drop)]
pub struct Regions {
    pub(crate) map: Map,
    pub(crate) set: u64,
    pub(crate) left: u64,
    ghost stands: { is_set map.n map.rows set ≡ true },
    ghost stood: { is_set map.n map.rows left ≡ true },
}
