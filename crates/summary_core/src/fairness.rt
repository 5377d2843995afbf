//! Jain's index of fairness over the leaves.
ghost use Rattle.std.specs.Prelude.{◌≡◌, ◌+◌, ◌≤◌, ◌^◌, ◌⊎◌, ◌∷◌, [], length, IsTrue, IsFalse};
ghost use Rattle.summary_core.specs.Fairness.{has_packets, share_of, shares, total, squares, fairness_of};

use crate::counts::Counts;
use crate::group::Group;
use crate::totals::Totals;

/// Jain's index of fairness over the leaves.
#[derive(Clone, Copy, PartialEq, Eq, Debug)]
pub enum Fairness {
    /// The index in millionths, rounded down.
    Index(u128),
    /// All shares are 0.
    NoShares,
    /// The shares are too many or too large for the calculation.
    TooLarge,
}

fn has_packets(counts: &Counts) -> bool
    ensures { result ≡ has_packets counts.now }
{
    counts.arrived != 0 || counts.dropped != 0
}

/// Returns the departed bytes of a leaf by its weight, in thousandths of a byte.
fn share_of(group: &Group) -> u128
    ensures { result ≡ share_of group.now }
{
    u128::from(group.figures.counts.bytes) * 1_000 / u128::from(group.label.weight.max(1))
}

/// Adds the share of a leaf that has packets, and returns whether the totals had room for it.
fn add_leaf(totals: &mut Totals, leaf: &Group) -> bool
    ensures count { IsTrue result → totals.new.count ≡
        totals.old.count + length (shares (leaf.now ∷ [])) }
    ensures sum { IsTrue result → totals.new.sum ≡
        totals.old.sum + total (shares (leaf.now ∷ [])) }
    ensures squares { IsTrue result → totals.new.squares ≡
        totals.old.squares + squares (shares (leaf.now ∷ [])) }
    ensures large { IsFalse result → (2 ^ 54 ≤ totals.old.sum + total (shares (leaf.now ∷ []))) ⊎
        (2 ^ 20 ≤ totals.old.count + length (shares (leaf.now ∷ []))) }
{
    if has_packets(&leaf.figures.counts) {
        totals.add(share_of(leaf))
    } else {
        true
    }
}

/// Returns Jain's index of the leaves.
pub fn fairness_of(leaves: &[Group]) -> Fairness
    ensures { result ≡ fairness_of leaves.now }
{
    let mut totals = Totals::new();
    for leaf in leaves {
        if !add_leaf(&mut totals, leaf) {
            return Fairness::TooLarge;
        }
    }
    totals.index()
}
