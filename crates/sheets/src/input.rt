ghost use Rattle.std.specs.Prelude.{◌≡◌, ◌⊎◌, ◌+◌, ◌-◌, ◌≤◌, false, IfOk, IfSome, OnOk, vec_len};
ghost use Rattle.std.specs.Io.KnownBytes.{Consumes, IsAtEnd};
ghost use Rattle.sheets.specs.Reading.{enough, most_bytes, read_all};
ghost use Rattle.sheets.specs.Taking.{Gains, TakesUpTo};

use super::read::MOST_BYTES;
use std::alloc::Global;
use std::io;
use std::io::Read;

// Bytes that are asked for at a time.
const CHUNK: usize = 1024;

// The bytes of a sheet that a reader gives: one byte more than a sheet may have decides that it is
// too long, so no more are taken.
pub fn sheet_bytes<R: Read>(heap: Global, reader: &mut R) -> io::Result<Vec<u8>>
    ensures bytes { IfOk result (λ v. IfSome (R.remaining reader.old) (λ xs. v.items ≡ enough xs)) }
    ensures reading { IfOk result (λ v. IfSome (R.remaining reader.old) (λ xs. read_all v.items ≡ read_all xs)) }
    ensures short { IfOk result (λ v. vec_len v ≤ most_bytes + 1) }
    ensures rest { IfOk result (λ v. Consumes (R.remaining reader.old) (R.remaining reader.new) v.items) }
    ensures taken { TakesUpTo (most_bytes + 1) (R.remaining reader.old) (R.remaining reader.new) }
{
    let mut bytes = Vec::new(heap);
    'reads: for _ in 0..u64::MAX {
        if !read_more(reader, &mut bytes)? {
            return Ok(bytes);
        }
    }
    Err(io::Error::from(io::ErrorKind::TimedOut))
}

// One read behind the bytes of before, and whether there may be more to take: after a read that a
// signal interrupted there may.
fn read_more<R: Read>(reader: &mut R, bytes: &mut Vec<u8>) -> io::Result<bool>
    requires { vec_len bytes.old ≤ most_bytes + 1 }
    ensures gains { OnOk result (Gains (R.remaining reader.old) (R.remaining reader.new) bytes.old.items bytes.new.items) }
    ensures end { IfOk result (λ more. more ≡ false → IsAtEnd (R.remaining reader.new) ⊎ (most_bytes + 1 ≤ vec_len bytes.new)) }
    ensures short { vec_len bytes.new ≤ most_bytes + 1 }
    ensures taken { TakesUpTo (most_bytes + 1 - vec_len bytes.old) (R.remaining reader.old) (R.remaining reader.new) }
{
    let room = CHUNK.min(MOST_BYTES + 1 - bytes.len());
    if room == 0 {
        return Ok(false);
    }
    let mut chunk = [0u8; CHUNK];
    match reader.read(&mut chunk[..room]) {
        Ok(0) => Ok(false),
        Ok(count) => {
            bytes.extend_from_slice(&chunk[..count])?;
            Ok(true)
        }
        Err(e) if e.kind() == io::ErrorKind::Interrupted => Ok(true),
        Err(e) => Err(e),
    }
}
