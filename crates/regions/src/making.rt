//! Making the oracle of a map.
ghost use Rattle.std.specs.Prelude.{◌≡◌, ℕ, List, Decides};
ghost use Rattle.connected.specs.Sets.{RegionCode, regions_setup};
ghost use Rattle.connected.specs.Textbook.{Textbook};

use super::subject::Regions;
use maps::Map;
use oracle::walking::Walking;

impl Regions {
    // Stands at the empty set. The objects of its set-up are the connected sets of the map's regions.
    pub fn new(map: &Map) -> Regions
        ensures sound { ⟦<Regions as Walking>⟧.sound result }
        ensures setup { ⟦<Regions as Walking>⟧.setup result ≡ regions_setup map.now.n map.now.rows }
        ensures root { ⟦<Regions as Walking>⟧.current result ≡ (⟦<Regions as Walking>⟧.setup result).root }
        ensures objects { (row : List ℕ) → Decides ((⟦<Regions as Walking>⟧.setup result).object row) (RegionCode map.now.n map.now.rows row) }
        ensures textbook { Textbook map.now.n map.now.rows (⟦<Regions as Walking>⟧.setup result) }
    {
        Regions {
            map: *map,
            set: 0,
            left: 0,
        }
    }
}
