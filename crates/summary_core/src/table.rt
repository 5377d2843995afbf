//! Sums and lists by index.
ghost use Rattle.std.specs.Prelude.{◌≡◌, ◌≢◌, ◌==◌, ◌++◌, ℕ, if◌then◌else◌, length, option_map, slice_get, IsTrue, OnOk};
ghost use Rattle.std.specs.Ordering.{nat_cmp};
ghost use Rattle.std.specs.List.Sorted.{IsPermutation, IsSorted};
ghost use Rattle.summary_core.specs.Counting.{with_event};
ghost use Rattle.summary_core.specs.Lists.{list_at};
ghost use Rattle.summary_core.specs.Ranks.{AreSorted};
ghost use Rattle.summary_core.specs.Summing.{delay_of, delays_at, is_at_leaf, items_at};

use crate::counts::Counts;
use crate::event::PacketEvent;
use std::alloc::AllocError;

/// Counts an event in the sums at this index, if there are any, and returns whether they had room.
#[inline(always)]
pub(crate) fn count_at(sums: &mut Vec<Counts>, index: u32, event: PacketEvent) -> bool
    ensures { IsTrue result → (i : ℕ) → slice_get sums.new.items i ≡
        option_map (λ c. if i == index then with_event event c else c) (slice_get sums.old.items i) }
{
    match sums.get_mut(index as usize) {
        Some(counts) => counts.add(event),
        None => true,
    }
}

/// Counts an event in the sums of a class's leaf, and returns whether they had room. The table
/// gives the index of each class's leaf.
#[inline(always)]
pub(crate) fn count_at_leaf(
    leaves: &mut Vec<Counts>,
    table: &[u32],
    class: u32,
    event: PacketEvent,
) -> bool
    ensures { IsTrue result → (l : ℕ) → slice_get leaves.new.items l ≡
        option_map (λ c. if is_at_leaf table.now l class then with_event event c else c)
        (slice_get leaves.old.items l) }
{
    match table.get(class as usize) {
        Some(leaf) => count_at(leaves, *leaf, event),
        None => true,
    }
}

/// Adds the delay of a departure, if it has one, to a list that has room, and returns whether it
/// had.
#[inline(always)]
fn push_delay(delays: &mut Vec<u64>, event: PacketEvent) -> bool
    ensures { IsTrue result → delays.new.items ≡ delays.old.items ++ delay_of event }
{
    match event {
        PacketEvent::Departed(_, Some(times)) => {
            let roomy = delays.len() < delays.capacity();
            if roomy {
                delays.push_reserved(times.delay);
            }
            roomy
        }
        PacketEvent::Departed(_, None) => true,
        PacketEvent::Arrived(_, _) => true,
        PacketEvent::Dropped => true,
    }
}

/// Adds the delay of a departure to the list at this index, if there is one, and returns whether
/// the list had room.
#[inline(always)]
pub(crate) fn delay_at(lists: &mut Vec<Vec<u64>>, index: u32, event: PacketEvent) -> bool
    ensures { IsTrue result → (i : ℕ) → items_at lists.new.items i ≡
        option_map (λ l. l ++ delays_at i index event) (items_at lists.old.items i) }
{
    match lists.get_mut(index as usize) {
        Some(delays) => push_delay(delays, event),
        None => true,
    }
}

/// Reserves room for `more` delays in the list at this index, if there is one.
pub(crate) fn reserve_at(
    lists: &mut Vec<Vec<u64>>,
    index: u32,
    more: usize,
) -> Result<(), AllocError>
    ensures { (i : ℕ) → items_at lists.new.items i ≡ items_at lists.old.items i }
{
    match lists.get_mut(index as usize) {
        Some(delays) => delays.reserve(more),
        None => Ok(()),
    }
}

/// Sorts the list at this index, if there is one.
fn sort_at(lists: &mut Vec<Vec<u64>>, index: usize)
    ensures same { (i : ℕ) → IsPermutation (list_at lists.old.items i) (list_at lists.new.items i) }
    ensures sorted { IsSorted nat_cmp (list_at lists.new.items index) }
    ensures others { (i : ℕ) → i ≢ index → list_at lists.new.items i ≡ list_at lists.old.items i }
    ensures many { length lists.new.items ≡ length lists.old.items }
{
    match lists.get_mut(index) {
        Some(list) => list.sort_unstable(),
        None => (),
    }
}

/// Sorts each list.
pub(crate) fn sort_lists(lists: &mut Vec<Vec<u64>>)
    ensures same { (i : ℕ) → IsPermutation (list_at lists.old.items i) (list_at lists.new.items i) }
    ensures sorted { AreSorted lists.new.items }
{
    for index in 0..lists.len() {
        sort_at(lists, index);
    }
}
