ghost use Rattle.std.specs.Prelude.{◌≡◌, ◌<◌, ◌≤◌, ◌==◌};
ghost use Rattle.digits.specs.Bits.{bit, count};
ghost use Rattle.maps.specs.Touch.{touches as touching, pair_total};

use super::map::Map;

// How many digits below j are set.
fn lower(row: u64, j: u32) -> u32
    requires { j < 64 }
    ensures value { result ≡ count j (bit row) }
    ensures within { result ≤ 64 }
{
    (row & ((1u64 << j) - 1)).count_ones()
}

impl Map {
    // How many regions there are.
    pub fn regions(&self) -> u32
        ensures value { result ≡ self.now.n }
    {
        self.n
    }

    // The touch table: digit j of row i is 1 where regions i and j touch.
    pub fn rows(&self) -> &[u64; 64]
        ensures { result.now ≡ self.now.rows }
    {
        &self.rows
    }

    // Whether two regions touch; a number that names no region touches none.
    pub fn touches(&self, a: u32, b: u32) -> bool
        ensures { result ≡ (touching self.now.rows a b == 1) }
    {
        a < 64 && digits::has(self.rows[a as usize], b)
    }

    // How many unordered pairs of regions touch.
    pub fn pair_count(&self) -> u32
        ensures { result ≡ pair_total self.now.rows self.now.n }
    {
        let mut total = 0u32;
        for (row, j) in self.rows.iter().zip(0..self.n) {
            total += lower(*row, j);
        }
        total
    }
}
