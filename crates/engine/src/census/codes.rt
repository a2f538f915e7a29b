//! The acts of a census that write and read codes, held to the plain census.
ghost use Rattle.std.specs.Prelude.{◌≡◌};
ghost use Rattle.engine.specs.Places.{read_place, save_place};
ghost use Rattle.engine.specs.Plain.{plain_resume, OpensAgain};

use crate::census::Census;
use oracle::coded::Coded;
use refusals::Refusal;

impl<O: Coded> Census<O> {
    // How many bytes a code has.
    pub fn size(&self) -> usize
        ensures { result ≡ (O.Walking.setup self.now.oracle).size }
    {
        self.tour.oracle.size()
    }

    // Writes the code of the object at the place to the front of the buffer. Refused past the end,
    // and then if the buffer has fewer bytes than a code.
    #[tactic(auto, using(crate::proofs::Standings::spot_of_tour))]
    pub fn read(&self, buffer: &mut [u8]) -> Result<(), Refusal>
        ensures { (result, buffer.new) ≡ read_place (O.Walking.setup self.now.oracle) self.now.view.stand buffer.old }
    {
        self.tour.put_code(buffer)
    }

    // Writes a mark block of the object at the place to the first 512 bytes of the buffer. Refused
    // past the end, and then if the buffer has fewer bytes. What was saved can be resumed.
    #[tactic(auto, using(crate::proofs::Standings::spot_of_tour, crate::proofs::Resumes::opens_again))]
    pub fn save(&self, job: u32, buffer: &mut [u8]) -> Result<(), Refusal>
        ensures saved { (result, buffer.new) ≡ save_place job (O.Walking.setup self.now.oracle) self.now.view.stand buffer.old }
        ensures opens { OpensAgain job (O.Walking.setup self.now.oracle) self.now.view result buffer.new }
    {
        self.tour.put_block(job, buffer)
    }

    // Stands at the block's object, with the tally cleared; granted past the end too. Refused as the
    // block's opening is, and then nothing changes.
    pub fn resume(&mut self, job: u32, block: &[u8]) -> Result<(), Refusal>
        ensures setup { O.Walking.setup self.new.oracle ≡ O.Walking.setup self.old.oracle }
        ensures resumed { (result, self.new.view) ≡ plain_resume job (O.Walking.setup self.old.oracle) self.old.view block.now }
        ensures called { O.Walking.calls self.new.oracle ≡ O.Walking.calls self.old.oracle }
    {
        self.tour.take_block(job, block)
    }
}
