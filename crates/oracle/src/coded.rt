//! The coded interface: reading the current object's code, and going to the object of a code.
ghost use Rattle.std.specs.Prelude.{◌≡◌};
ghost use Rattle.oracle.specs.Calls.{written, taken};

use crate::walking::Walking;
use refusals::Refusal;

// The most bytes of a code. A code is held in an array of this size: taking an object has no answer for want of
// memory, so that what it needs is of a fixed size.
pub const MOST_SIZE: usize = 480;

pub trait Coded: Walking {
    fn size(&self) -> usize
        requires { Self.Walking.sound self.now }
        ensures { result ≡ (Self.Walking.setup self.now).size };

    // Refused if the buffer has fewer bytes than a code. The bytes beyond the code stay as found.
    fn put(&self, buffer: &mut [u8]) -> Result<(), Refusal>
        requires { Self.Walking.sound self.now }
        ensures { (result, buffer.new) ≡ written (Self.Walking.setup self.now) (Self.Walking.current self.now) buffer.old };

    // Refused if the row is not the code of an object, and then the current object stays.
    fn take(&mut self, row: &[u8]) -> Result<(), Refusal>
        requires { Self.Walking.sound self.old }
        ensures sound { Self.Walking.sound self.new }
        ensures setup { Self.Walking.setup self.new ≡ Self.Walking.setup self.old }
        ensures moved { (result, Self.Walking.current self.new) ≡ taken (Self.Walking.setup self.old) (Self.Walking.current self.old) row.now }
        ensures called { Self.Walking.calls self.new ≡ Self.Walking.calls self.old };
}
