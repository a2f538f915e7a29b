//! Bytes that are handed to a writer.
ghost use Rattle.std.specs.Io.{WritesAtMost};
ghost use Rattle.std.specs.Io.KnownBytes.{WriteAppends};
ghost use Rattle.lines.specs.Written.{Written};

use std::io;
use std::io::Write;

// Writes all of the bytes, where no write fails.
pub fn write_whole<W: Write>(writer: &mut W, bytes: &[u8]) -> io::Result<()>
    ensures { Written (W.contents writer.old) (W.contents writer.new) result bytes.now }
{
    let mut rest = bytes;
    'writes: for _ in 0..u64::MAX {
        if rest.is_empty() {
            return Ok(());
        }
        let count = write_some(writer, rest)?;
        rest = &rest[count..];
    }
    Err(io::Error::from(io::ErrorKind::TimedOut))
}

// Writes all of the bytes, and hands on what the writer holds back of them.
pub fn write_flushed<W: Write>(writer: &mut W, bytes: &[u8]) -> io::Result<()>
    ensures { Written (W.contents writer.old) (W.contents writer.new) result bytes.now }
{
    write_whole(writer, bytes)?;
    writer.flush()
}

// One write, and how many bytes it took: none where a signal interrupted it, else at least one.
fn write_some<W: Write>(writer: &mut W, bytes: &[u8]) -> io::Result<usize>
    ensures bound { WritesAtMost result bytes.now }
    ensures bytes { WriteAppends (W.contents writer.old) (W.contents writer.new) result bytes.now }
{
    match writer.write(bytes) {
        Ok(0) => Err(io::Error::from(io::ErrorKind::WriteZero)),
        Ok(count) => Ok(count),
        Err(e) if e.kind() == io::ErrorKind::Interrupted => Ok(0),
        Err(e) => Err(e),
    }
}
