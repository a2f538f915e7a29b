//! The way home over any oracle.
ghost use Rattle.std.specs.Prelude.{◌≡◌};
ghost use Rattle.oracle.specs.Home.{steps_home};
ghost use Rattle.oracle.specs.Outcomes.{ticks};

use crate::walking::Walking;

// Steps home until the root is current.
pub fn go_home<O: Walking>(oracle: &mut O)
    requires { O.Walking.sound oracle.old }
    ensures sound { O.Walking.sound oracle.new }
    ensures setup { O.Walking.setup oracle.new ≡ O.Walking.setup oracle.old }
    ensures root { O.Walking.current oracle.new ≡ (O.Walking.setup oracle.old).root }
    ensures called { O.Walking.calls oracle.new ≡ ticks O.Walking.tick (steps_home (O.Walking.setup oracle.old) (O.Walking.current oracle.old)) (O.Walking.calls oracle.old) }
{
    while let Some(up) = oracle.home() {
        let _ = oracle.step(up);
    }
}
