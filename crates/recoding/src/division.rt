// The pairs that a division found, in memory of a fixed size: a 64-bit number has at most 63, and the logger has no heap.
ghost use Rattle.std.specs.Prelude.{◌≡◌, ◌≤◌};

use super::pair::Pair;

/// The pairs of a job number, the least significant first.
#[derive(Clone, Copy)]
pub struct Division {
    pub(crate) pairs: [Pair; 63],
    pub(crate) count: usize,
    ghost within: { count ≤ 63 },
}

impl Division {
    // Here, since the definition names the struct.
    ghost use Rattle.recoding.specs.Divisions.{found_by};

    /// The pairs, the least significant first.
    pub fn pairs(&self) -> &[Pair]
        ensures { result.now ≡ found_by self.now }
    {
        &self.pairs[..self.count]
    }
}
