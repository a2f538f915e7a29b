//! A path of three objects: the smallest oracle in which two slots lead to one child.
#![tactic(auto)]

ghost use Rattle.std.specs.Prelude.{◌≡◌, ℕ, ◌<◌, ◌+◌, min};
ghost use Rattle.oracle.specs.Outcomes.{counted};
ghost use Rattle.tiny_path.specs.Laws.{path_lawful, path_stands};
ghost use Rattle.tiny_path.specs.Listed.{Listed};
ghost use Rattle.tiny_path.specs.Setup.{code, path};
ghost use Rattle.tiny_path.specs.declared.TheConstants.{OBJECTS};

use oracle::coded::Coded;
use oracle::walking::Walking;
use refusals::Refusal;

const OBJECTS: u8 = 3;

// Edges between two neighbours: an edge joins a slot below to the one that is so many further above.
const EDGES: usize = 2;

const WIDTH: usize = 2 * EDGES;

const HEIGHT: u32 = OBJECTS as u32 - 1;

const SIZE: usize = 1;

// The path, standing at one of its objects, and how many calls of step it has had; the count stays at the
// greatest u64 once it is there.
#[derive(Clone, Copy)]
pub struct TinyPath {
    at: u8,
    calls: u64,
    ghost within: { at < OBJECTS },
}

impl TinyPath {
    pub fn new() -> TinyPath
        ensures sound { ⟦<TinyPath as Walking>⟧.sound result }
        ensures setup { ⟦<TinyPath as Walking>⟧.setup result ≡ path }
        ensures current { ⟦<TinyPath as Walking>⟧.current result ≡ path.root }
        ensures calls { ⟦<TinyPath as Walking>⟧.calls result ≡ 0 }
        ensures tick { (n : ℕ) → ⟦<TinyPath as Walking>⟧.tick n ≡ min (n + 1) 18446744073709551615 }
    {
        TinyPath { at: 0, calls: 0 }
    }
}

// The list of the path is its objects in order, each once, and the walks make 20 steps.
pub fn list_stands()
    ensures { Listed }
{}

impl Walking for TinyPath {
    ghost setup = { λ _. path };

    ghost current = { λ x. code x.at };

    ghost calls = { λ x. x.calls };

    ghost tick = { λ n. counted (n + 1) };

    ghost sound = { λ _. Unit {0} };

    ghost lawful = { λ _ _. path_lawful };

    ghost stands = { λ x _. path_stands x.at x.within };

    fn width(&self) -> usize {
        WIDTH
    }

    fn height(&self) -> u32 {
        HEIGHT
    }

    fn rank(&self) -> u32 {
        u32::from(self.at)
    }

    fn home(&self) -> Option<usize> {
        if self.at == 0 { None } else { Some(1) }
    }

    fn step(&mut self, slot: usize) -> Result<Option<usize>, Refusal> {
        self.calls = self.calls.saturating_add(1);
        if slot >= WIDTH {
            Err(Refusal::SlotRange)
        } else if slot < EDGES && self.at > 0 {
            self.at -= 1;
            Ok(Some(slot + EDGES))
        } else if slot >= EDGES && self.at + 1 < OBJECTS {
            self.at += 1;
            Ok(Some(slot - EDGES))
        } else {
            Ok(None)
        }
    }
}

impl Coded for TinyPath {
    fn size(&self) -> usize {
        SIZE
    }

    fn put(&self, buffer: &mut [u8]) -> Result<(), Refusal> {
        let [first, ..] = buffer else {
            return Err(Refusal::BufferShort);
        };
        *first = self.at;
        Ok(())
    }

    fn take(&mut self, row: &[u8]) -> Result<(), Refusal> {
        match row {
            [at] if *at < OBJECTS => {
                self.at = *at;
                Ok(())
            }
            _ => Err(Refusal::NotACode),
        }
    }
}

#[cfg(test)]
mod tests;
