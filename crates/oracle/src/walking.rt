//! The walking interface: what a walk over the objects needs.
ghost use Rattle.std.specs.Prelude.{◌≡◌, ℕ};
ghost use Rattle.oracle.specs.Calls.{stepped};
ghost use Rattle.oracle.specs.Laws.{Object, Lawful};
ghost use Rattle.oracle.specs.Setup.{Code, Setup};

use refusals::Refusal;

pub trait Walking {
    // the set-up, which never changes
    ghost setup: { Self → Setup };

    ghost current: { Self → Code };

    // how many calls of step it has had, refused ones among them, as an oracle that counts them says; one
    // that does not says nothing
    ghost calls: { Self → ℕ } = { λ _. 0 };

    // What one more call makes of that count. It is a function, and not the number to be added, so that a count
    // which the running program keeps, and which stops at a ceiling, is one too. What is proved over every
    // oracle then binds each walk to its number of calls: generic code cannot tell implementations apart, and
    // one that does count might be the one that it is given.
    ghost tick: { ℕ → ℕ } = { λ n. n };

    // the premise of every call: making gives it, and each call keeps it
    ghost sound: { Self → Type 0 };

    ghost lawful: { (x : Self) → sound x → Lawful (setup x) };

    ghost stands: { (x : Self) → sound x → Object (setup x) (current x) };

    fn width(&self) -> usize
        requires { sound self.now }
        ensures { result ≡ (setup self.now).width };

    fn height(&self) -> u32
        requires { sound self.now }
        ensures { result ≡ (setup self.now).height };

    fn rank(&self) -> u32
        requires { sound self.now }
        ensures { result ≡ (setup self.now).rank (current self.now) };

    fn home(&self) -> Option<usize>
        requires { sound self.now }
        ensures { result ≡ (setup self.now).home (current self.now) };

    // Refused from the width on. At a vacant slot the answer is none and the current object stays;
    // otherwise the neighbour becomes current, and the answer is its slot that leads back.
    // That the set-up is the same after as before is a clause of each call: no fact of one value can say it, and
    // a word for it would be no shorter.
    fn step(&mut self, slot: usize) -> Result<Option<usize>, Refusal>
        requires { sound self.old }
        ensures sound { sound self.new }
        ensures setup { setup self.new ≡ setup self.old }
        ensures moved { (result, current self.new) ≡ stepped (setup self.old) (current self.old) slot }
        ensures called { calls self.new ≡ tick (calls self.old) };
}
