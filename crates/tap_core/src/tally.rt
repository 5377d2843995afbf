//! Counts that stay at the greatest rank once they reach it.
ghost use Rattle.std.specs.Prelude.{◌≡◌, ◌∷◌, []};
ghost use Rattle.tap_core.specs.Steps.{sum_up_to_max, counted};
ghost use Rattle.tap_core.specs.Held.{numbers_of};

use rank_defs::MAX_RANK;

/// Returns the sum of two counts, or `MAX_RANK` if the sum is greater.
pub fn sum_up_to_max(a: u64, b: u64) -> u64
    ensures { result ≡ sum_up_to_max a b }
{
    a.saturating_add(b).min(MAX_RANK)
}

/// The number of packets, and the sum of their lengths in bytes.
#[derive(Clone, Copy, PartialEq, Eq, Debug)]
pub struct Tally {
    packets: u64,
    bytes: u64,
}

impl Tally {
    pub fn new() -> Tally
        ensures { numbers_of result ≡ 0 ∷ 0 ∷ [] }
    {
        Tally {
            packets: 0,
            bytes: 0,
        }
    }

    /// Counts a packet of this length in bytes.
    pub fn count(&mut self, len: u32)
        ensures { numbers_of self.new ≡ counted len (numbers_of self.old) }
    {
        self.packets = sum_up_to_max(self.packets, 1);
        self.bytes = sum_up_to_max(self.bytes, u64::from(len));
    }

    pub fn numbers(&self) -> [u64; 2]
        ensures { result ≡ numbers_of self.now }
    {
        [self.packets, self.bytes]
    }
}
