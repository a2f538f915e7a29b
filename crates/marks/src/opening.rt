//! Opening a mark block.
ghost use Rattle.std.specs.Prelude.{◌≡◌, ◌≤◌, IfOk};
ghost use Rattle.marks.specs.Opening.{checks, size_in, size_fits, judged, opened, moved_to};
ghost use Rattle.marks.specs.Told.{Told};

use crate::checking::{BLOCK, BODY, all_zero, check_of};
use crate::head::{HEAD, edition};
use oracle::coded::{Coded, MOST_SIZE};
use refusals::Refusal;

fn checks(block: &[u8; BLOCK]) -> bool
    ensures { result ≡ checks block.now }
{
    let [.., c0, c1, c2, c3] = block;
    u32::from_le_bytes([*c0, *c1, *c2, *c3]) == check_of(block)
}

fn size_fits(size: usize) -> bool
    ensures { result ≡ size_fits size }
{
    0 < size && size <= MOST_SIZE
}

// The code size of a block that is whole and stands under this job number.
fn judge(edition: u8, job: u32, block: &[u8; BLOCK]) -> Result<usize, Refusal>
    ensures judged { result ≡ judged edition job block.now }
    ensures size { IfOk result (λ k. k ≡ size_in block.now) }
    ensures room { IfOk result (λ k. k ≤ 480) }
{
    if !checks(block) {
        return Err(Refusal::BlockCheck);
    }
    let [first, zero, k0, k1, j0, j1, j2, j3, ..] = block;
    let size = usize::from(u16::from_le_bytes([*k0, *k1]));
    if *first != edition || *zero != 0 || !size_fits(size) || !all_zero(&block[HEAD + size..BODY]) {
        return Err(Refusal::BlockForm);
    }
    if u32::from_le_bytes([*j0, *j1, *j2, *j3]) != job {
        return Err(Refusal::JobDiffers);
    }
    Ok(size)
}

// Makes the block's object current. A refusal changes nothing, and no call of step is made.
pub fn open_block<O: Coded>(oracle: &mut O, job: u32, block: &[u8]) -> Result<(), Refusal>
    requires { O.Walking.sound oracle.old }
    ensures sound { O.Walking.sound oracle.new }
    ensures setup { O.Walking.setup oracle.new ≡ O.Walking.setup oracle.old }
    ensures moved { (result, O.Walking.current oracle.new) ≡ moved_to (O.Walking.current oracle.old) (opened job (O.Walking.setup oracle.old) block.now) }
    ensures called { O.Walking.calls oracle.new ≡ O.Walking.calls oracle.old }
    ensures told { Told job (O.Walking.setup oracle.old) block.now (opened job (O.Walking.setup oracle.old) block.now) }
{
    let block = block.as_array().ok_or(Refusal::BlockSize)?;
    let size = judge(edition(oracle), job, block)?;
    if size != oracle.size() {
        return Err(Refusal::NotACode);
    }
    oracle.take(&block[HEAD..HEAD + size])
}
