//! The ranges of a test, prepared for a binary search.
ghost use Rattle.std.specs.Prelude.{◌≡◌, ◌≤◌, ◌<◌, ◌-◌, ◌+◌, ℕ, map, length, slice_index_or, IfOk};
ghost use Rattle.std.specs.List.Sorted.{IsNonDecreasingBy, IsPermutation};
ghost use Rattle.packet_defs.specs.Test.{is_among};
ghost use Rattle.packet_core.specs.Tests.{range_of};
ghost use Rattle.packet_core.specs.Ranges.{low, high, values};

use policy_text_defs::Range;
use std::alloc::{AllocError, Global};

/// Ranges in the order of their least values. Each reaches as far as any before it, so a value that
/// is in one of them is in the last one that begins at or below it.
#[derive(Drop)]
pub(crate) struct Ranges {
    pub(crate) all: Vec<Range>,
    ghost lows: { IsNonDecreasingBy low all.items },
    ghost highs: { IsNonDecreasingBy high all.items },
}

/// Returns the ranges in the order of their least values.
fn sorted(alloc: Global, ranges: &[Range]) -> Result<Vec<Range>, AllocError>
    ensures { IfOk result (λ all. IsPermutation ranges.now all.items ×
        IsNonDecreasingBy low all.items) }
{
    let mut all = Vec::from_slice(alloc, ranges)?;
    all.sort_by_key(|range| range.low)?;
    Ok(all)
}

/// Lets each range reach as far as any before it.
fn lengthened(alloc: Global, sorted: &[Range]) -> Result<Ranges, AllocError>
    requires { IsNonDecreasingBy low sorted.now }
    ensures { IfOk result (λ ranges. (v : ℕ) → is_among (values ranges.all.items) v ≡
        is_among (values sorted.now) v) }
{
    let mut all = Vec::new(alloc);
    let mut greatest = 0;
    for range in sorted {
        greatest = range.high.max(greatest);
        all.push(Range {
            low: range.low,
            high: greatest,
        })?;
    }
    Ok(Ranges { all })
}

impl Ranges {
    /// Prepares ranges. The only error is out of memory.
    pub(crate) fn new(alloc: Global, ranges: &[Range]) -> Result<Ranges, AllocError>
        ensures { IfOk result (λ prepared. (v : ℕ) → is_among (values prepared.all.items) v ≡
            is_among (values ranges.now) v) }
    {
        lengthened(alloc, &sorted(alloc, ranges)?)
    }

    /// Returns whether a value is in one of the ranges.
    pub(crate) fn contains(&self, value: u32) -> bool
        ensures { result ≡ is_among (values self.now.all.items) value }
    {
        let after = self.all.partition_point(|range| range.low <= value);
        after > 0 && value <= self.all[after - 1].high
    }
}
