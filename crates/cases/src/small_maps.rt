//! Small maps worked by hand. Sets are masks.
use maps::map_of;
use oracle::coded::Coded;
use oracle::walking::Walking;
use refusals::Refusal;
use regions::Regions;
use std::test::Fail;

// Where a slot leads from a set, and the return slot, if 0 touches 1 and 1 touches 2; no set has a region
// past 7.
fn across(set: u8, slot: usize) -> Result<(u8, Option<usize>), Refusal> {
    let map = map_of(3, &[(0, 1), (1, 2)])?;
    let mut regions = Regions::new(&map);
    regions.take(&[set, 0, 0, 0, 0, 0, 0, 0])?;
    let back = regions.step(slot)?;
    let mut code = [0u8; 8];
    regions.put(&mut code)?;
    Ok((code[0], back))
}

#[test]
fn neighbours(rt: HostRuntime) {
    // 0 and 2 do not touch, and without 1 no chain joins them
    let table = [
        (0u8, 1usize, Ok((2u8, Some(1)))),
        (2, 0, Ok((3, Some(0)))),
        (2, 1, Ok((0, Some(1)))),
        (2, 2, Ok((6, Some(2)))),
        (1, 2, Ok((1, None))),
        (7, 0, Ok((6, Some(0)))),
        (7, 1, Ok((7, None))),
        (7, 3, Err(Refusal::SlotRange)),
        (5, 1, Err(Refusal::NotACode)),
        (8, 1, Err(Refusal::NotACode)),
    ];
    for (set, slot, to) in table {
        assert!(rt; across(set, slot) == to);
    }
}

#[test]
fn ring_of_four(rt: HostRuntime) -> Result<(), Fail> {
    let map = map_of(4, &[(0, 1), (1, 2), (2, 3), (3, 0)])?;
    let mut regions = Regions::new(&map);
    assert!(rt; regions.home() == None);
    // 0 and 2 are joined by chains through 1 and 3 alone, which are outside
    assert!(rt; regions.take(&[5, 0, 0, 0, 0, 0, 0, 0]).is_err());
    regions.take(&[14, 0, 0, 0, 0, 0, 0, 0])?;
    assert!(rt; regions.rank() == 3);
    assert!(rt; regions.home() == Some(1));
    Ok(())
}
