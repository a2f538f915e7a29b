//! An oracle at every upper limit, and a census over it and over a cap of it: one object, whose 4,096 slots are all
//! vacant and whose code has 480 bytes.
ghost use Rattle.oracle.proofs.Limits.{widest_lawful};
ghost use Rattle.std.specs.Prelude.{◌≡◌, ◌≤◌};
ghost use Rattle.oracle.specs.Calls.{written};
ghost use Rattle.oracle.specs.Limits.{full, single, widest};

use cap::Cap;
use engine::census::Census;
use engine::tally::Tally;
use oracle::coded::{Coded, MOST_SIZE};
use oracle::walking::Walking;
use refusals::Refusal;
use std::process::Abort;
use std::test::Fail;

const WIDTH: usize = 4096;

#[derive(Clone, Copy)]
struct Widest;

impl Walking for Widest {
    ghost setup = { λ _. widest };

    ghost current = { λ _. widest.root };

    ghost sound = { λ _. Unit {0} };

    ghost lawful = { λ _ _. widest_lawful };

    ghost stands = { λ _ _. widest_lawful.root_object };

    fn width(&self) -> usize {
        WIDTH
    }

    fn height(&self) -> u32 {
        1_000_000
    }

    fn rank(&self) -> u32 {
        0
    }

    fn home(&self) -> Option<usize> {
        None
    }

    fn step(&mut self, slot: usize) -> Result<Option<usize>, Refusal> {
        if slot < WIDTH {
            Ok(None)
        } else {
            Err(Refusal::SlotRange)
        }
    }
}

// Writes a code of so many bytes: a proof over this size that counts to 480 takes too many steps.
fn put_full<const N: usize>(buffer: &mut [u8]) -> Result<(), Refusal>
    requires { N ≤ 480 }
    ensures { (result, buffer.new) ≡ written (single 4096 N 1000000) (full N) buffer.old }
{
    let code = [255; N];
    let front = buffer.first_chunk_mut().ok_or(Refusal::BufferShort)?;
    *front = code;
    Ok(())
}

impl Coded for Widest {
    fn size(&self) -> usize {
        MOST_SIZE
    }

    fn put(&self, buffer: &mut [u8]) -> Result<(), Refusal> {
        put_full::<MOST_SIZE>(buffer)
    }

    fn take(&mut self, row: &[u8]) -> Result<(), Refusal> {
        if row == [255; MOST_SIZE].as_slice() {
            Ok(())
        } else {
            Err(Refusal::NotACode)
        }
    }
}

// The object is read, saved and opened again past the end, under its own job. The walk from it makes a step for
// each slot.
fn stands_alone<O: Coded + Drop>(rt: &impl Abort, oracle: O) -> Result<(), Fail>
    requires { O.Walking.sound oracle }
{
    let mut census = Census::new(oracle);
    assert_eq!(rt; census.rank(), Some(0));
    let mut code = [7u8; 481];
    assert_eq!(rt; census.read(&mut code[..479]), Err(Refusal::BufferShort));
    census.read(&mut code)?;
    assert!(rt; code.starts_with(&[255; 480]));
    assert_eq!(rt; code[480], 7);
    let mut block = [7u8; 512];
    census.save(7, &mut block)?;
    assert!(rt; block.starts_with(&[1, 0, 0xe0, 1, 7, 0, 0, 0]));
    assert!(rt; block[8..].starts_with(&[255; 480]));
    assert!(rt; block[488..].starts_with(&[0; 20]));
    assert!(rt; block[508..].starts_with(&[0x08, 0x3c, 0, 0]));
    assert_eq!(rt; census.next()?, None);
    assert_eq!(rt;
        census.tally(),
        Tally {
            objects: 1,
            steps: 4096
        }
    );
    assert_eq!(rt; census.next(), Err(Refusal::PastEnd));
    assert_eq!(rt; census.resume(8, &block), Err(Refusal::JobDiffers));
    census.resume(7, &block)?;
    assert_eq!(rt; census.rank(), Some(0));
    assert_eq!(rt;
        census.tally(),
        Tally {
            objects: 1,
            steps: 0
        }
    );
    assert_eq!(rt; census.next()?, None);
    Ok(())
}

#[test]
fn one_object(rt: HostRuntime) -> Result<(), Fail> {
    stands_alone(&rt, Widest)?;
    stands_alone(&rt, Cap::new(Widest, 0))
}

// Of rows of 480 bytes only one is a code, below a cap too; no longer or shorter row is.
#[test]
fn other_rows(rt: HostRuntime) -> Result<(), Fail> {
    let mut other = [255u8; 481];
    let mut capped = Cap::new(Widest, 0);
    capped.take(&other[..480])?;
    assert_eq!(rt; Widest.take(&other), Err(Refusal::NotACode));
    assert_eq!(rt; Widest.take(&other[..479]), Err(Refusal::NotACode));
    other[479] = 254;
    assert_eq!(rt; Widest.take(&other[..480]), Err(Refusal::NotACode));
    assert_eq!(rt; capped.take(&other[..480]), Err(Refusal::NotACode));
    Ok(())
}
