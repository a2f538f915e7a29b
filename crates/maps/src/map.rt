ghost use Rattle.std.specs.Prelude.{◌≤◌};
ghost use Rattle.maps.specs.Touch.{Mutual, Inside};

// A sealed map of n regions: row i has digit j where i and j touch. It takes no further pair.
// There is a row for each region that a map can have, so that it is of a fixed size.
#[derive(Clone, Copy)]
pub struct Map {
    pub(crate) n: u32,
    pub(crate) rows: [u64; 64],
    ghost some: { 1 ≤ n },
    ghost few: { n ≤ 64 },
    ghost mutual: { Mutual rows },
    ghost inside: { Inside n rows },
}
