//! The walk over the path.
use crate::TinyPath;
use oracle::coded::Coded;
use oracle::home::go_home;
use oracle::outcome::{Outcome, Reached};
use oracle::walk::walk;
use oracle::walking::Walking;

// Each object comes once, and the steps are those of the slots looked at on the way.
#[test]
fn walks_the_path(rt: HostRuntime) {
    let mut path = TinyPath::new();
    let walks = [
        (Reached::Child, 5, 1),
        (Reached::Child, 7, 2),
        (Reached::End, 8, 0),
    ];
    for (reached, steps, rank) in walks {
        assert!(rt; walk(&mut path, 0) == Outcome { reached, steps });
        assert_eq!(rt; path.rank(), rank);
    }
}

// A walk steps as often as it counts, and no more.
#[test]
fn counts_its_calls(rt: HostRuntime) {
    let mut path = TinyPath::new();
    for _ in 0..3 {
        let before = path.calls;
        let Outcome { steps, .. } = walk(&mut path, 0);
        assert_eq!(rt; path.calls.checked_sub(before), Some(steps));
    }
}

// Past the last slot the walk rises at once.
#[test]
fn rises_at_once(rt: HostRuntime) {
    let mut path = TinyPath::new();
    assert!(rt; path.take(&[2]).is_ok());
    assert!(rt;
        walk(&mut path, 1000)
            == Outcome {
                reached: Reached::End,
                steps: 2,
            }
    );
}

#[test]
fn goes_home(rt: HostRuntime) {
    let mut path = TinyPath::new();
    assert!(rt; path.take(&[2]).is_ok());
    assert!(rt; path.take(&[3]).is_err());
    assert!(rt; path.take(&[1, 1]).is_err());
    assert_eq!(rt; path.rank(), 2);
    go_home(&mut path);
    assert_eq!(rt; path.rank(), 0);
}

#[test]
fn puts_its_code(rt: HostRuntime) {
    let mut path = TinyPath::new();
    let mut bytes = [7u8, 8];
    assert!(rt; path.take(&[2]).is_ok());
    assert!(rt; path.put(&mut bytes).is_ok());
    assert_eq!(rt; bytes, [2, 8]);
    assert!(rt; path.put(&mut bytes[0..0]).is_err());
}
