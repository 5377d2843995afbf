//! The minimum, the median, the maximum and two high percentiles of delays.
ghost use Rattle.std.specs.Prelude.{◌≡◌, ◌<◌, ◌≤◌, ◌^◌, ◌-◌, ℕ, All, length};
ghost use Rattle.std.specs.Ordering.{nat_cmp};
ghost use Rattle.std.specs.List.Sorted.{IsSorted};
ghost use Rattle.summary_core.specs.Lists.{list_at};
ghost use Rattle.summary_core.specs.Percentiles.{nearest_rank};
ghost use Rattle.summary_core.specs.Ranks.{count_to, listed, AreSorted, IsAtRank, IsAtPercent};
ghost use Rattle.summary_core.specs.Figures.{HasPercentiles};

/// The percentiles of delays, in nanoseconds.
#[derive(Clone, Copy, PartialEq, Eq, Debug)]
pub struct Delays {
    pub minimum: u64,
    pub median: u64,
    pub p95: u64,
    pub p99: u64,
    pub maximum: u64,
}

/// Returns the rank of a percentile among this many delays, counted from 1 (nearest rank).
fn nearest_rank(percent: u32, count: u128) -> u128
    requires { percent ≤ 100 }
    ensures value { result ≡ nearest_rank percent count }
    ensures least { 1 ≤ percent → 0 < count → 1 ≤ result }
    ensures most { result ≤ count }
{
    let percent = u128::from(percent);
    count / 100 * percent + (count % 100 * percent).div_ceil(100)
}

/// Returns how many delays of a sorted list are at most a bound.
fn count_to(sorted: &[u64], bound: u64) -> usize
    requires { IsSorted nat_cmp sorted.now }
    ensures { result ≡ count_to bound sorted.now }
{
    sorted.partition_point(|delay| *delay <= bound)
}

/// Returns the list at an index, or an empty one if there is none.
fn list_of(lists: &[Vec<u64>], index: usize) -> &[u64]
    ensures { result.now ≡ list_at lists.now index }
{
    match lists.get(index) {
        Some(list) => list,
        None => &[],
    }
}

/// Returns how many delays of the lists with these indices are at most a bound.
fn count_all(lists: &[Vec<u64>], members: &[usize], bound: u64) -> u128
    requires { AreSorted lists.now }
    ensures { result ≡ count_to bound (listed (list_at lists.now) members.now) }
{
    let mut count = 0u128;
    for place in 0..members.len() {
        count += count_to(list_of(lists, members[place]), bound) as u128;
    }
    count
}

/// Returns how many delays are in the lists with these indices.
fn total(lists: &[Vec<u64>], members: &[usize]) -> u128
    ensures { result ≡ length (listed (list_at lists.now) members.now) }
{
    let mut count = 0u128;
    for place in 0..members.len() {
        count += list_of(lists, members[place]).len() as u128;
    }
    count
}

/// Returns the greatest delay of a sorted list, or 0 if it is empty.
fn last_of(sorted: &[u64]) -> u64
    requires { IsSorted nat_cmp sorted.now }
    ensures { All (λ delay. delay ≤ result) sorted.now }
{
    match sorted.last() {
        Some(last) => *last,
        None => 0,
    }
}

/// Returns a number that neither is above.
fn highest(one: u64, other: u64) -> u64
    ensures one { one ≤ result }
    ensures other { other ≤ result }
{
    one.max(other)
}

/// Returns the greatest delay of the lists with these indices, or 0 if there is none.
fn greatest(lists: &[Vec<u64>], members: &[usize]) -> u64
    requires { AreSorted lists.now }
    ensures { count_to result (listed (list_at lists.now) members.now) ≡
        length (listed (list_at lists.now) members.now) }
{
    let mut greatest = 0;
    for place in 0..members.len() {
        greatest = highest(greatest, last_of(list_of(lists, members[place])));
    }
    greatest
}

/// Returns the delay at a rank among the lists with these indices, for a rank from 1 on. At least that many delays are at most
/// `bound`. Searches for the delay by counting, so that no list is copied.
fn at_rank(lists: &[Vec<u64>], members: &[usize], rank: u128, bound: u64) -> u64
    requires sorted { AreSorted lists.now }
    requires least { 1 ≤ rank }
    requires most { rank ≤ count_to bound (listed (list_at lists.now) members.now) }
    ensures { IsAtRank (listed (list_at lists.now) members.now) rank result }
{
    let mut low = 0;
    let mut high = bound;
    while low < high {
        let middle = low + (high - low) / 2;
        if rank <= count_all(lists, members, middle) {
            high = middle;
        } else {
            low = middle + 1;
        }
    }
    low
}

/// Returns a percentile of the delays in the lists with these indices. `count` is their number, and
/// none is above `bound`.
fn at_percent(lists: &[Vec<u64>], members: &[usize], percent: u32, count: u128, bound: u64) -> u64
    requires sorted { AreSorted lists.now }
    requires count { count ≡ length (listed (list_at lists.now) members.now) }
    requires some { 0 < count }
    requires least { 1 ≤ percent }
    requires most { percent ≤ 100 }
    requires bound { count_to bound (listed (list_at lists.now) members.now) ≡ count }
    ensures { IsAtPercent (listed (list_at lists.now) members.now) percent result }
{
    at_rank(lists, members, nearest_rank(percent, count), bound)
}

/// Returns the percentiles of the delays in the lists with these indices, if there are any.
pub(crate) fn percentiles(lists: &[Vec<u64>], members: &[usize]) -> Option<Delays>
    requires { AreSorted lists.now }
    ensures { HasPercentiles (listed (list_at lists.now) members.now) result }
{
    let count = total(lists, members);
    if count == 0 {
        return None;
    }
    let bound = greatest(lists, members);
    Some(Delays {
        minimum: at_rank(lists, members, 1, bound),
        median: at_percent(lists, members, 50, count, bound),
        p95: at_percent(lists, members, 95, count, bound),
        p99: at_percent(lists, members, 99, count, bound),
        maximum: at_percent(lists, members, 100, count, bound),
    })
}
