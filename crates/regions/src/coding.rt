//! The codes of the connected sets of a map.
use super::judging::is_set;
use super::subject::Regions;
use masks::{read_code, write_code};
use oracle::coded::Coded;
use refusals::Refusal;

impl Coded for Regions {
    fn size(&self) -> usize {
        masks::CODE_SIZE
    }

    fn put(&self, buffer: &mut [u8]) -> Result<(), Refusal> {
        write_code(self.set, buffer)
    }

    fn take(&mut self, row: &[u8]) -> Result<(), Refusal> {
        self.set = read_code(row)
            .filter(|set| is_set(&self.map, *set))
            .ok_or(Refusal::NotACode)?;
        Ok(())
    }
}
