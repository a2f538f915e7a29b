//! Caps over the tiny path of three objects, whose ranks are 0, 1 and 2.
use cap::Cap;
use oracle::coded::Coded;
use oracle::outcome::{Outcome, Reached};
use oracle::walk::walk;
use oracle::walking::Walking;
use refusals::Refusal;
use std::test::Fail;
use tiny_path::TinyPath;

fn outcome(reached: Reached, steps: u64) -> Outcome {
    Outcome { reached, steps }
}

// The smaller of two caps decides, whichever stands above. The object of rank 2 is cut off: two objects, and
// 2 × 4 + 4 steps.
#[test]
fn cap_over_a_cap(rt: HostRuntime) {
    let mut path = Cap::new(Cap::new(TinyPath::new(), 1), 9);
    assert_eq!(rt; path.height(), 1);
    assert!(rt; walk(&mut path, 0) == outcome(Reached::Child, 5));
    assert_eq!(rt; path.rank(), 1);
    assert!(rt; walk(&mut path, 0) == outcome(Reached::End, 7));
    assert_eq!(rt; path.rank(), 0);
}

// A code above the cap is refused, and the object that was held stays.
#[test]
fn refused_code_moves_nothing(rt: HostRuntime) -> Result<(), Fail> {
    let mut path = Cap::new(TinyPath::new(), 1);
    path.take(&[1])?;
    assert_eq!(rt; path.take(&[2]), Err(Refusal::NotACode));
    assert_eq!(rt; path.take(&[3]), Err(Refusal::NotACode));
    assert_eq!(rt; path.rank(), 1);
    let mut code = [9u8; 2];
    path.put(&mut code)?;
    assert_eq!(rt; code, [1, 9]);
    Ok(())
}
