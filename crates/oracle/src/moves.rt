//! Single moves over an oracle.
ghost use Rattle.std.specs.Prelude.{◌≡◌, ◌+◌, ◌<◌, Some};
ghost use Rattle.oracle.specs.Outcomes.{across, counted};
ghost use Rattle.oracle.specs.Setup.{filled};
ghost use Rattle.oracle.specs.Sight.{is_home};

use crate::walking::Walking;

// A step by a slot below the width, counted: the return slot, or none at a vacant slot.
pub(crate) fn cross<O: Walking>(oracle: &mut O, slot: usize, steps: &mut u64) -> Option<usize>
    requires sound { O.Walking.sound oracle.old }
    requires below { slot < (O.Walking.setup oracle.old).width }
    ensures sound { O.Walking.sound oracle.new }
    ensures setup { O.Walking.setup oracle.new ≡ O.Walking.setup oracle.old }
    ensures crossed { (result, O.Walking.current oracle.new) ≡ across (O.Walking.current oracle.old) ((O.Walking.setup oracle.old).slot (O.Walking.current oracle.old) slot) }
    ensures counted { steps.new ≡ counted (steps.old + 1) }
    ensures called { O.Walking.calls oracle.new ≡ O.Walking.tick (O.Walking.calls oracle.old) }
{
    *steps = steps.saturating_add(1);
    oracle.step(slot).unwrap_or(None)
}

// Whether this is the current object's home slot.
pub(crate) fn leads_home<O: Walking>(oracle: &O, slot: usize) -> bool
    requires { O.Walking.sound oracle.now }
    ensures { result ≡ is_home ((O.Walking.setup oracle.now).home (O.Walking.current oracle.now)) slot }
{
    oracle.home() == Some(slot)
}

// The step home from an object that has this home slot, counted: the parent is current then, and its
// slot that is answered leads back.
pub(crate) fn rise<O: Walking>(oracle: &mut O, home: usize, steps: &mut u64) -> usize
    requires sound { O.Walking.sound oracle.old }
    requires homed { (O.Walking.setup oracle.old).home (O.Walking.current oracle.old) ≡ Some home }
    ensures sound { O.Walking.sound oracle.new }
    ensures setup { O.Walking.setup oracle.new ≡ O.Walking.setup oracle.old }
    ensures risen { (O.Walking.setup oracle.old).slot (O.Walking.current oracle.old) home ≡ filled (O.Walking.current oracle.new) result }
    ensures counted { steps.new ≡ counted (steps.old + 1) }
    ensures called { O.Walking.calls oracle.new ≡ O.Walking.tick (O.Walking.calls oracle.old) }
{
    cross(oracle, home, steps).unwrap()
}
