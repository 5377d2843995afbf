//! The totals of shares that Jain's index needs.
ghost use Rattle.std.specs.Prelude.{◌<◌, ◌≤◌, ◌*◌, ◌^◌};

use crate::fairness::Fairness;

/// The sum of the shares stays below this number.
const MOST_SUM: u128 = 1 << 54;

/// The number of shares stays below this number.
const MOST_COUNT: u128 = 1 << 20;

/// The number of shares, their sum, and the sum of their squares.
#[derive(Clone, Copy)]
pub(crate) struct Totals {
    count: u128,
    sum: u128,
    squares: u128,
    ghost few: { count < 2 ^ 20 },
    ghost small: { sum < 2 ^ 54 },
    ghost bounded: { squares ≤ sum * sum },
}

impl Totals {
    ghost use Rattle.std.specs.Prelude.{◌≡◌, ◌+◌, ◌⊎◌, IsTrue, IsFalse};
    ghost use Rattle.summary_core.specs.Fairness.{index_from};

    pub(crate) fn new() -> Totals
        ensures count { result.count ≡ 0 }
        ensures sum { result.sum ≡ 0 }
        ensures squares { result.squares ≡ 0 }
    {
        Totals {
            count: 0,
            sum: 0,
            squares: 0,
        }
    }

    /// Adds a share, and returns whether the totals had room for it.
    #[tactic(auto, using(crate::proofs::Squares::square_below, crate::proofs::Squares::one_more_square))]
    pub(crate) fn add(&mut self, share: u128) -> bool
        ensures count { IsTrue result → self.new.count ≡ self.old.count + 1 }
        ensures sum { IsTrue result → self.new.sum ≡ self.old.sum + share }
        ensures squares { IsTrue result → self.new.squares ≡ self.old.squares + share * share }
        ensures large { IsFalse result → (2 ^ 54 ≤ self.old.sum + share) ⊎
            (2 ^ 20 ≤ self.old.count + 1) }
    {
        if share >= MOST_SUM - self.sum || self.count + 1 >= MOST_COUNT {
            return false;
        }
        *self = Totals {
            count: self.count + 1,
            sum: self.sum + share,
            squares: self.squares + share * share,
        };
        true
    }

    /// Returns Jain's index of these totals.
    #[tactic(auto, using(crate::proofs::Squares::millionths_fit, crate::proofs::Squares::divisor_fits))]
    pub(crate) fn index(self) -> Fairness
        ensures { result ≡ index_from self.count self.sum self.squares }
    {
        let divisor = self.count * self.squares;
        if divisor == 0 {
            return Fairness::NoShares;
        }
        Fairness::Index(self.sum * self.sum * 1_000_000 / divisor)
    }
}
