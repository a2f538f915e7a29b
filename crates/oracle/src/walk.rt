//! The walk over any oracle.
ghost use Rattle.std.specs.Prelude.{◌≡◌, ◌+◌};
ghost use Rattle.oracle.specs.Places.{place};
ghost use Rattle.oracle.specs.Outcomes.{counted, landing, rested, ticks};
ghost use Rattle.oracle.specs.Walk.{walk_from};

use crate::moves::{cross, leads_home, rise};
use crate::outcome::{Outcome, Reached};
use crate::walking::Walking;

// The rest of the walk from a slot of the current object; from 0 it is the walk itself, which leads
// to the next place of the list. From the width on no slot is left, and it rises at once. A child
// that is reached is current then; at the end the root is.
pub fn walk<O: Walking>(oracle: &mut O, from: usize) -> Outcome
    requires { O.Walking.sound oracle.old }
    ensures sound { O.Walking.sound oracle.new }
    ensures setup { O.Walking.setup oracle.new ≡ O.Walking.setup oracle.old }
    ensures stopped { (result.reached, O.Walking.current oracle.new) ≡ rested (O.Walking.setup oracle.old) (walk_from (O.Walking.setup oracle.old) (O.Walking.current oracle.old) from).stop }
    ensures counted { result.steps ≡ counted (walk_from (O.Walking.setup oracle.old) (O.Walking.current oracle.old) from).steps }
    ensures called { O.Walking.calls oracle.new ≡ ticks O.Walking.tick (walk_from (O.Walking.setup oracle.old) (O.Walking.current oracle.old) from).steps (O.Walking.calls oracle.old) }
    ensures next { from ≡ 0 → landing (O.Walking.setup oracle.old) result.reached (O.Walking.current oracle.new) ≡ place (O.Walking.setup oracle.old) (O.Walking.current oracle.old) + 1 }
{
    let width = oracle.width();
    let mut next = from;
    let mut steps: u64 = 0;
    let reached = 'rising: loop {
        'scan: for slot in next..width {
            if let Some(back) = cross(oracle, slot, &mut steps) {
                if leads_home(oracle, back) {
                    break 'rising Reached::Child;
                }
                let _ = cross(oracle, back, &mut steps);
            }
        }
        let Some(up) = oracle.home() else {
            break 'rising Reached::End;
        };
        next = rise(oracle, up, &mut steps) + 1;
    };
    Outcome { reached, steps }
}
