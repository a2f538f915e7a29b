ghost use Rattle.std.specs.Prelude.{◌≡◌, ◌<◌};
ghost use Rattle.maps.specs.Touch.{begun, with_pair, offered, map_from, pair_fault};
ghost use Rattle.maps.specs.Views.{drafted, mapped_out, through, Meant};

use super::draft::Draft;
use super::map::Map;
use refusals::Refusal;

// What is wrong with a pair among n regions.
fn pair_fault(n: u32, a: u32, b: u32) -> Option<Refusal>
    ensures { result ≡ pair_fault n a b }
{
    if a >= n || b >= n {
        return Some(Refusal::OutOfRange);
    }
    if a == b {
        return Some(Refusal::BadPair);
    }
    None
}

// Enters two regions as touching, both ways.
#[tactic(auto, unfolding(crate::specs::Touch::with_pair))]
fn enter(rows: &mut [u64; 64], a: u32, b: u32)
    requires first { a < 64 }
    requires second { b < 64 }
    ensures { rows.new ≡ with_pair rows.old a b }
{
    rows[a as usize] = digits::with(rows[a as usize], b);
    rows[b as usize] = digits::with(rows[b as usize], a);
}

impl Draft {
    // n regions of which none touch yet.
    pub fn new(n: u32) -> Result<Draft, Refusal>
        ensures { through drafted result ≡ begun n }
    {
        if n < 1 || n > 64 {
            return Err(Refusal::OutOfRange);
        }
        Ok(Draft {
            map: Map { n, rows: [0; 64] },
        })
    }

    // Takes one pair more; a refused pair changes nothing, a pair given twice counts once.
    pub fn add(&mut self, a: u32, b: u32) -> Result<(), Refusal>
        ensures { (result, drafted self.new) ≡ offered (drafted self.old) a b }
    {
        if let Some(refusal) = pair_fault(self.map.n, a, b) {
            return Err(refusal);
        }
        enter(&mut self.map.rows, a, b);
        Ok(())
    }

    // Moves the map out of the draft; it never refuses.
    pub fn seal(self) -> Map
        ensures { mapped_out result ≡ drafted self }
    {
        self.map
    }
}

// The map of n regions in which the given pairs touch; the first refusal ends it.
pub fn map_of(n: u32, pairs: &[(u32, u32)]) -> Result<Map, Refusal>
    ensures value { through mapped_out result ≡ map_from n pairs.now }
    ensures touching { Meant pairs.now result }
{
    let mut draft = Draft::new(n)?;
    for (a, b) in pairs {
        draft.add(*a, *b)?;
    }
    Ok(draft.seal())
}
