//! In a polygon of four corners the diagonals are 1 (0, 2) and 4 (1, 3); in one of five corners 1 (0, 2),
//! 3 (0, 3), 4 (1, 3), 7 (1, 4) and 8 (2, 4). A set is the number in which pair e has the weight 2 to the
//! power e.
use oracle::coded::Coded;
use oracle::walking::Walking;
use polygon::Polygon;
use refusals::Refusal;
use std::test::Fail;

fn standing_at(n: u32, set: u16) -> Result<Polygon, Refusal> {
    let mut polygon = Polygon::new(n)?;
    let mut code = [0u8; 35];
    let [low, high] = set.to_le_bytes();
    code[0] = low;
    code[1] = high;
    polygon.take(&code)?;
    Ok(polygon)
}

// Where a slot leads, and the return slot; no set has a pair past 15.
fn across(n: u32, set: u16, slot: usize) -> Result<(u16, Option<usize>), Refusal> {
    let mut polygon = standing_at(n, set)?;
    let back = polygon.step(slot)?;
    let mut code = [0u8; 35];
    polygon.put(&mut code)?;
    Ok((u16::from_le_bytes([code[0], code[1]]), back))
}

#[test]
fn neighbours(rt: HostRuntime) {
    // the corners, a set, a slot, the set that it leads to, the return slot
    let table = [
        (3u32, 0u16, 2usize, Ok((0u16, None))),
        (4, 1 << 1, 0, Ok((1 << 1, None))),
        (4, 1 << 1, 1, Ok((1 << 4, Some(4)))),
        (4, 1 << 4, 4, Ok((1 << 1, Some(1)))),
        (5, 1 << 1 | 1 << 3, 1, Ok((1 << 3 | 1 << 4, Some(4)))),
        (5, 1 << 1 | 1 << 3, 3, Ok((1 << 1 | 1 << 8, Some(8)))),
        (5, 1 << 3 | 1 << 4, 3, Ok((1 << 4 | 1 << 7, Some(7)))),
        (5, 1 << 4 | 1 << 7, 4, Ok((1 << 7 | 1 << 8, Some(8)))),
        (5, 1 << 7 | 1 << 8, 7, Ok((1 << 1 | 1 << 8, Some(1)))),
        (5, 1 << 7 | 1 << 8, 3, Ok((1 << 7 | 1 << 8, None))),
        (5, 1 << 1 | 1 << 3, 10, Err(Refusal::SlotRange)),
        // two that cross, and one missing
        (5, 1 << 1 | 1 << 4, 1, Err(Refusal::NotACode)),
        (5, 1 << 7, 7, Err(Refusal::NotACode)),
        (2, 0, 0, Err(Refusal::OutOfRange)),
    ];
    for (n, set, slot, to) in table {
        assert!(rt; across(n, set, slot) == to);
    }
}

#[test]
fn homes(rt: HostRuntime) -> Result<(), Fail> {
    // the corners, a set, its home slot and its rank; the fan is the root
    let table = [
        (3u32, 0u16, None, 0u32),
        (4, 1 << 1, None, 0),
        (4, 1 << 4, Some(4), 1),
        (5, 1 << 1 | 1 << 3, None, 0),
        (5, 1 << 3 | 1 << 4, Some(4), 1),
        (5, 1 << 4 | 1 << 7, Some(7), 2),
        (5, 1 << 1 | 1 << 8, Some(8), 1),
        (5, 1 << 7 | 1 << 8, Some(7), 2),
    ];
    for (n, set, home, rank) in table {
        let polygon = standing_at(n, set)?;
        assert!(rt; polygon.home() == home && polygon.rank() == rank);
    }
    Ok(())
}
