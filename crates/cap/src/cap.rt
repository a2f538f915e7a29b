ghost use Rattle.std.specs.Prelude.{◌≡◌, ◌≤◌, nat_le};
ghost use Rattle.cap.specs.Capped.{capped};
ghost use Rattle.cap.specs.Cut.{Cut};
ghost use Rattle.cap.specs.Laws.{cap_lawful, object_from};
ghost use Rattle.oracle.specs.Home.{steps_home};
ghost use Rattle.oracle.specs.Outcomes.{ticks};

use oracle::coded::{Coded, MOST_SIZE};
use oracle::home::go_home;
use oracle::walking::Walking;
use refusals::Refusal;

// The oracle below, and the greatest rank that is let through.
#[derive(Drop)]
pub struct Cap<O> {
    below: O,
    most: u32,
}

impl<O: Walking> Cap<O> {
    // Steps the oracle below home, and stands at its root.
    pub fn new(mut below: O, most: u32) -> Cap<O>
        requires { O.Walking.sound below }
        ensures sound { ⟦<Cap<O> as Walking>⟧.sound result }
        ensures setup { ⟦<Cap<O> as Walking>⟧.setup result ≡ capped most (O.Walking.setup below) }
        ensures root { ⟦<Cap<O> as Walking>⟧.current result ≡ (O.Walking.setup below).root }
        ensures cut { Cut most (O.Walking.setup below) (⟦<Cap<O> as Walking>⟧.setup result) }
        ensures called { O.Walking.calls result.below ≡ ticks O.Walking.tick (steps_home (O.Walking.setup below) (O.Walking.current below)) (O.Walking.calls below) }
    {
        go_home(&mut below);
        Cap { below, most }
    }

    // Whether the current object below has a rank that is let through.
    fn allows(&self) -> bool
        requires { O.Walking.sound self.now.below }
        ensures { result ≡ nat_le ((O.Walking.setup self.now.below).rank (O.Walking.current self.now.below)) self.now.most }
    {
        self.below.rank() <= self.most
    }
}

impl<O: Walking> Walking for Cap<O> {
    ghost setup = { λ x. capped x.most (O.Walking.setup x.below) };

    ghost current = { λ x. O.Walking.current x.below };

    ghost sound = { λ x. O.Walking.sound x.below × ((O.Walking.setup x.below).rank (O.Walking.current x.below) ≤ x.most) };

    ghost lawful = { λ x h. cap_lawful x.most (O.Walking.setup x.below) (O.Walking.lawful x.below h.0) };

    ghost stands = { λ x h. object_from x.most (O.Walking.setup x.below) (O.Walking.current x.below) (O.Walking.stands x.below h.0) h.1 };

    fn width(&self) -> usize {
        self.below.width()
    }

    fn height(&self) -> u32 {
        self.most.min(self.below.height())
    }

    fn rank(&self) -> u32 {
        self.below.rank()
    }

    fn home(&self) -> Option<usize> {
        self.below.home()
    }

    // A neighbour above the cap is left again, and its slot told as vacant.
    fn step(&mut self, slot: usize) -> Result<Option<usize>, Refusal> {
        let Some(back) = self.below.step(slot)? else {
            return Ok(None);
        };
        if self.allows() {
            return Ok(Some(back));
        }
        let _ = self.below.step(back);
        Ok(None)
    }
}

impl<O: Coded> Coded for Cap<O> {
    fn size(&self) -> usize {
        self.below.size()
    }

    fn put(&self, buffer: &mut [u8]) -> Result<(), Refusal> {
        self.below.put(buffer)
    }

    // An object above the cap is left again for the one that was held.
    fn take(&mut self, row: &[u8]) -> Result<(), Refusal> {
        // a take has no answer for want of memory, so the code is held in memory of a fixed size
        let mut held = [0u8; MOST_SIZE];
        let _ = self.below.put(&mut held);
        self.below.take(row)?;
        if self.allows() {
            return Ok(());
        }
        let _ = self.below.take(&held[..self.below.size()]);
        Err(Refusal::NotACode)
    }
}
