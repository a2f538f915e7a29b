//! The head of a block.
ghost use Rattle.std.specs.Prelude.{◌≡◌};
ghost use Rattle.marks.specs.Layout.{edition, head};

use oracle::coded::Coded;

// How many bytes the head has.
pub(crate) const HEAD: usize = 8;

// The edition of the block form for this oracle's set-up.
pub(crate) fn edition<O: Coded>(oracle: &O) -> u8
    ensures { result ≡ edition (O.Walking.setup oracle.now) }
{
    1
}

pub(crate) fn head<O: Coded>(oracle: &O, job: u32) -> [u8; HEAD]
    requires { O.Walking.sound oracle.now }
    ensures { result ≡ head job (O.Walking.setup oracle.now) }
{
    let [k0, k1] = (oracle.size() as u16).to_le_bytes();
    let [j0, j1, j2, j3] = job.to_le_bytes();
    [edition(oracle), 0, k0, k1, j0, j1, j2, j3]
}
