//! Programs over a reader and a writer that hand on one byte at a time.
use lines::verdict::print_verdict;
use printouts::{print_replay, print_sheet};
use std::alloc::Global;
use std::io;
use std::io::{Read, Write};
use std::test::Fail;

// Gives one byte at each read.
#[derive(Drop)]
struct Source<'a> {
    left: &'a [u8],
}

impl<'a> Read for Source<'a> {
    fn read(&mut self, buf: &mut [u8]) -> io::Result<usize> {
        match (self.left, buf.first_mut()) {
            ([first, rest @ ..], Some(place)) => {
                *place = *first;
                self.left = rest;
                Ok(1)
            }
            _ => Ok(0),
        }
    }
}

// Takes one byte at each write, and notes whether it was flushed behind the last one.
#[derive(Drop)]
struct Sink {
    taken: Vec<u8>,
    flushed: bool,
}

impl Write for Sink {
    fn write(&mut self, buf: &[u8]) -> io::Result<usize> {
        let count = buf.len().min(1);
        self.taken.extend_from_slice(&buf[..count])?;
        self.flushed = false;
        Ok(count)
    }

    fn flush(&mut self) -> io::Result<()> {
        self.flushed = true;
        Ok(())
    }
}

impl Sink {
    fn new(heap: Global) -> Sink {
        Sink {
            taken: Vec::new(heap),
            flushed: false,
        }
    }

    fn holds(&self, text: &str) -> bool {
        self.flushed && self.taken.as_slice() == text.as_bytes()
    }
}

// The path of three regions, with one of its pairs many times: 286 bytes.
fn path_sheet(rt: &HostRuntime) -> Result<Vec<u8>, Fail> {
    let mut sheet = Vec::new(rt.alloc());
    sheet.extend_from_slice(b"R 3\n")?;
    for _ in 0..45 {
        sheet.extend_from_slice(b"- 0 1\n")?;
    }
    sheet.extend_from_slice(b"- 1 2\n. 100\n")?;
    Ok(sheet)
}

const LISTING: &str =
    "0 0000000000000000\n1 0100000000000000\n1 0200000000000000\n2 0300000000000000\n1 0400000000000000\n2 0600000000000000\n3 0700000000000000\nwhole 7 steps 39\n";

#[test]
fn listing(rt: HostRuntime) -> Result<(), Fail> {
    let sheet = path_sheet(&rt)?;
    let mut source = Source {
        left: sheet.as_slice(),
    };
    let mut sink = Sink::new(rt.alloc());
    print_sheet(rt.alloc(), &mut source, &mut sink)?;
    assert!(rt; sink.holds(LISTING));
    Ok(())
}

#[test]
fn verdict(rt: HostRuntime) -> Result<(), Fail> {
    let sheet = path_sheet(&rt)?;
    let mut source = Source {
        left: sheet.as_slice(),
    };
    let mut sink = Sink::new(rt.alloc());
    print_verdict(rt.alloc(), &mut source, &mut sink)?;
    assert!(rt; sink.holds("accepted R 3 pairs 2 cap 3 most 100\n"));
    Ok(())
}

#[test]
fn replay(rt: HostRuntime) -> Result<(), Fail> {
    let sheet = path_sheet(&rt)?;
    let mut source = Source {
        left: sheet.as_slice(),
    };
    let mut acts = Source {
        left: b"next\nread 9\ntally\n",
    };
    let mut sink = Sink::new(rt.alloc());
    print_replay(rt.alloc(), &mut source, &mut acts, &mut sink)?;
    assert!(rt; sink.holds("1\n0100000000000000ee\n2 1\n"));
    Ok(())
}
