//! A flood fill on words.
ghost use Rattle.std.specs.Prelude.{Decides};
ghost use Rattle.connected.specs.Connected.{Within, Joined};

use maps::Map;

// Whether any two of the ends, which are members of the set, are joined by a chain of members: from the
// lowest end on, until all ends are reached or no region reached is left to look at. The members that a
// region touches are reached once it is looked at, and no region outside the set.
pub(crate) fn joins(map: &Map, set: u64, ends: u64) -> bool
    requires { Within ends set }
    ensures { Decides result (Joined map.now.rows set ends) }
{
    if ends == 0 {
        return true;
    }
    let rows = map.rows();
    let mut seen = 1u64 << ends.trailing_zeros();
    let mut done = 0u64;
    while seen & ends != ends {
        let frontier = seen ^ done;
        if frontier == 0 {
            return false;
        }
        let next = frontier.trailing_zeros();
        seen |= rows[next as usize] & set;
        done |= 1u64 << next;
    }
    true
}
