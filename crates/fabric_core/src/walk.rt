//! The queues of a complete tree in an array, level after level: how they are made, and the walks
//! from the root to a leaf.
ghost use Rattle.std.specs.Prelude.{ℕ, ◌≡◌, ◌≤◌, ◌<◌, ◌+◌, ◌^◌, [], true, length, map, slice_index_or, IfOk, OnOk, IfNone, IfSome};
ghost use Rattle.std.specs.List.{AllByRecursion};
ghost use Rattle.embed_defs.specs.Family.{IsLeafAddress, HasRoomAlong};
ghost use Rattle.embed_defs.specs.Target.{IsTarget};
ghost use Rattle.fabric_core.specs.Array.{nodes, queues_at, room_at, flows_at, array_push, ArrayPops, ArrayKeepsRoom, ArrayTakesRoom};
ghost use Rattle.fabric_core.specs.Flow.{IsFlow, HasFlows};
ghost use Rattle.fabric_core.specs.Paths.{HoldsTree, LeadsToLeaf, HasPlaces, PopsNothing, CountsSpills};

use crate::node::NodeQueue;
use crate::shape::Shape;
use std::alloc::{AllocError, Global};

/// Makes room for one more entry at each node on the path to a leaf.
#[inline(always)]
pub fn reserve_along<Q: NodeQueue>(
    queues: &mut [Q],
    shape: &Shape,
    digits: &[u32],
) -> Result<(), AllocError>
    requires leaf { IsLeafAddress shape.now digits.now }
    requires array { HoldsTree shape.now (length queues.old) }
    ensures room { OnOk result (HasRoomAlong (room_at shape.now (map Q.spare queues.new) 0 1 0)
        digits.now) }
    ensures kept { ArrayKeepsRoom shape.now (map Q.spare queues.old) (map Q.spare queues.new) }
    ensures entries { map Q.entries queues.new ≡ map Q.entries queues.old }
    ensures pushes { map Q.pushes queues.new ≡ map Q.pushes queues.old }
    ensures flows { map Q.flows queues.new ≡ map Q.flows queues.old }
{
    let mut node = 0;
    for digit in digits {
        queues[node].make_room()?;
        node = shape.child(node, *digit);
    }
    queues[node].make_room()
}

/// Pushes a rank and the next digit at each inner node on the path to a leaf, and the last rank and
/// the item at the leaf. Returns the number of nodes at which the push spilled, if the queues
/// report spills.
#[inline(always)]
pub fn push_along<Q: NodeQueue>(
    queues: &mut [Q],
    shape: &Shape,
    digits: &[u32],
    ranks: &[u64],
    item: u64,
) -> u64
    requires path { LeadsToLeaf shape.now digits.now ranks.now }
    requires array { HoldsTree shape.now (length queues.old) }
    requires room { HasRoomAlong (room_at shape.now (map Q.spare queues.old) 0 1 0) digits.now }
    requires few { AllByRecursion (λ n. n < 2 ^ 62) (map Q.pushes queues.old) }
    ensures entries { map Q.entries queues.new ≡ array_push shape.now (map Q.entries queues.old) 0
        1 0 digits.now ranks.now item }
    ensures pushes { (n : ℕ) →
        AllByRecursion (λ k. k ≤ n) (map Q.pushes queues.old) → AllByRecursion (λ k. k ≤ n + 1) (map Q.pushes queues.new) }
    ensures less_room { ArrayTakesRoom shape.now digits.now (map Q.spare queues.old)
        (map Q.spare queues.new) }
    ensures spills { CountsSpills shape.now digits.now ranks.now (map Q.entries queues.old)
        (map Q.flows queues.old) (map Q.flows queues.new) result }
{
    let mut node = 0;
    let mut spilled = 0;
    for (level, digit) in digits.iter().enumerate() {
        let spills = queues[node].push_pair(ranks[level], u64::from(*digit));
        spilled += u64::from(spills);
        node = shape.child(node, *digit);
    }
    let spills = queues[node].push_pair(ranks[digits.len()], item);
    spilled + u64::from(spills)
}

/// Pops the root's queue, then the queue that each popped digit names, down to an item, and writes
/// the index of its leaf to `leaf`. Returns `None` only if the root's queue is empty.
#[inline(always)]
pub fn pop_along<Q: NodeQueue>(
    queues: &mut [Q],
    shape: &Shape,
    digits: &mut [u32],
    ranks: &mut [u64],
    leaf: &mut usize,
) -> Option<u64>
    requires path { HasPlaces shape.now digits.old ranks.old }
    requires array { HoldsTree shape.now (length queues.old) }
    requires flow { IsFlow shape.now (queues_at shape.now (map Q.entries queues.old) 0 1 0) }
    ensures none { IfNone result (PopsNothing shape.now (map Q.entries queues.old)
        (map Q.entries queues.new) digits.old digits.new ranks.old ranks.new) }
    ensures popped { IfSome result (λ item. ArrayPops shape.now (map Q.entries queues.old) item
        digits.new ranks.new (map Q.entries queues.new)) }
    ensures pushes { map Q.pushes queues.new ≡ map Q.pushes queues.old }
    ensures kept { ArrayKeepsRoom shape.now (map Q.spare queues.old) (map Q.spare queues.new) }
    ensures flows { map Q.flows queues.new ≡ map Q.flows queues.old }
{
    let mut node = 0;
    for level in 0..shape.height() {
        let (rank, value) = queues[node].pop_pair()?;
        let digit = value as u32;
        ranks[level] = rank;
        digits[level] = digit;
        node = shape.child(node, digit);
    }
    *leaf = node;
    let (rank, item) = queues[node].pop_pair()?;
    ranks[shape.height()] = rank;
    Some(item)
}

/// Makes an empty queue for each node of the complete tree of these arities.
pub fn empty_queues<Q: NodeQueue + Drop>(
    alloc: Global,
    arities: &[u32],
) -> Result<Vec<Q>, AllocError>
    requires target { IsTarget arities.now }
    ensures nodes { IfOk result (λ v. nodes arities.now ≡ length v.items) }
    ensures small { IfOk result (λ v. length v.items < 2 ^ 32) }
    ensures entries { IfOk result (λ v. AllByRecursion (λ q. q ≡ []) (map Q.entries v.items)) }
    ensures pushes { IfOk result (λ v. AllByRecursion (λ n. n ≡ 0) (map Q.pushes v.items)) }
    ensures flows { Q.tells ≡ true → IfOk result (λ v. HasFlows arities.now
        (flows_at arities.now (map Q.flows v.items) 0 1 0)) }
{
    let mut queues = Vec::new(alloc);
    let mut width = 1;
    for arity in arities {
        add_level(&mut queues, alloc, width, *arity)?;
        width *= *arity as usize;
    }
    add_level(&mut queues, alloc, width, 1)?;
    Ok(queues)
}

/// Adds the queues of a level of `width` nodes, with `count` flows each.
fn add_level<Q: NodeQueue + Drop>(
    queues: &mut Vec<Q>,
    alloc: Global,
    width: usize,
    count: u32,
) -> Result<(), AllocError>
    requires some { 1 ≤ count }
    ensures long { OnOk result (length queues.new.items ≡ length queues.old.items + width) }
    ensures entries { AllByRecursion (λ q. q ≡ []) (map Q.entries queues.old.items) →
        OnOk result (AllByRecursion (λ q. q ≡ []) (map Q.entries queues.new.items)) }
    ensures pushes { AllByRecursion (λ n. n ≡ 0) (map Q.pushes queues.old.items) →
        OnOk result (AllByRecursion (λ n. n ≡ 0) (map Q.pushes queues.new.items)) }
    ensures kept { (j : ℕ) → j < length queues.old.items →
        OnOk result (slice_index_or (map Q.flows queues.new.items) j 0 ≡ slice_index_or (map Q.flows queues.old.items) j 0) }
    ensures flows { Q.tells ≡ true → (j : ℕ) → length queues.old.items ≤ j →
        j < length queues.new.items →
        OnOk result (slice_index_or (map Q.flows queues.new.items) j 0 ≡ count) }
{
    for _ in 0..width {
        queues.push(Q::empty(alloc, count)?)?;
    }
    Ok(())
}
