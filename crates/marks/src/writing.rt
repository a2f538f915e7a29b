//! Writing a mark block.
ghost use Rattle.std.specs.Prelude.{◌≡◌, Ok, OnErr};
ghost use Rattle.marks.specs.Layout.{block, marked};
ghost use Rattle.marks.specs.Opening.{opened};
ghost use Rattle.marks.specs.Told.{Laid};

use crate::checking::{BLOCK, BODY, check_of};
use crate::head::{HEAD, head};
use oracle::coded::Coded;
use refusals::Refusal;

// The block of the current object: the head, the code, the filling and the check.
fn block<O: Coded>(oracle: &O, job: u32) -> [u8; BLOCK]
    requires { O.Walking.sound oracle.now }
    ensures { result ≡ block job (O.Walking.setup oracle.now) (O.Walking.current oracle.now) }
{
    let mut bytes = [0; BLOCK];
    bytes[..HEAD].copy_from_slice(&head(oracle, job));
    let _ = oracle.put(&mut bytes[HEAD..BODY]);
    let sum = check_of(&bytes);
    bytes[BODY..].copy_from_slice(&sum.to_le_bytes());
    bytes
}

// Writes the block of the current object to the first 512 bytes of the buffer; the others stay as
// found. Refused if the buffer has fewer. The block opens under its job number, at that object.
pub fn write_block<O: Coded>(oracle: &O, job: u32, buffer: &mut [u8]) -> Result<(), Refusal>
    requires { O.Walking.sound oracle.now }
    ensures written { (result, buffer.new) ≡ marked job (O.Walking.setup oracle.now) (O.Walking.current oracle.now) buffer.old }
    ensures refused { OnErr result (buffer.new ≡ buffer.old) }
    ensures opens { opened job (O.Walking.setup oracle.now) (block job (O.Walking.setup oracle.now) (O.Walking.current oracle.now)) ≡ Ok (O.Walking.current oracle.now) }
    ensures laid { Laid job (O.Walking.setup oracle.now) (O.Walking.current oracle.now) (block job (O.Walking.setup oracle.now) (O.Walking.current oracle.now)) }
{
    // as in the other writers of codes and blocks: one function over the size would be no shorter
    let front = buffer.first_chunk_mut().ok_or(Refusal::BufferShort)?;
    *front = block(oracle, job);
    Ok(())
}
