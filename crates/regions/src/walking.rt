//! Walking over the connected sets of a map.
ghost use Rattle.regions.specs.Views.{setup_of, current_of, lawful_of, stands_of};

use super::judging::first_to_leave;
use super::subject::Regions;
use super::turning::turned;
use oracle::walking::Walking;
use refusals::Refusal;

impl Walking for Regions {
    ghost setup = { setup_of };

    ghost current = { current_of };

    ghost sound = { λ _. Unit {0} };

    ghost lawful = { λ x _. lawful_of x };

    ghost stands = { λ x _. stands_of x };

    // A slot for each region, and no set has more members than there are regions.
    fn width(&self) -> usize {
        self.height() as usize
    }

    fn height(&self) -> u32 {
        self.map.regions()
    }

    fn rank(&self) -> u32 {
        self.set.count_ones()
    }

    fn home(&self) -> Option<usize> {
        first_to_leave(&self.map, self.set)
    }

    fn step(&mut self, slot: usize) -> Result<Option<usize>, Refusal> {
        if slot >= self.width() {
            return Err(Refusal::SlotRange);
        }
        if !self.leads_on(slot as u32) {
            return Ok(None);
        }
        let set = turned(self.set, slot as u32);
        self.left = self.set;
        self.set = set;
        Ok(Some(slot))
    }
}
