//! A queue of rank stores: one FIFO for each flow, a scheduler over their heads, and a heap of the
//! entries that spilled.
ghost use Rattle.std.specs.Prelude.{◌≡◌, ◌≤◌, ◌<◌, ◌+◌, ℕ, true, false, [], ◌∷◌, ◌++◌, length, map, nat_lt, drop, slice_index_or, OnOk, IfOk};
ghost use Rattle.std.specs.List.{AllByRecursion};
ghost use Rattle.std.specs.BinaryHeap.{IsHeap, heap_items, heap_len, heap_capacity};
ghost use Rattle.std.specs.VecDeque.{deque_items, deque_len, deque_capacity};
ghost use Rattle.std.specs.declared.cmp.Reverse.{Reverse};
ghost use Rattle.block_core.specs.declared.waiting.Waiting.{Waiting};
ghost use Rattle.block_core.specs.Arrival.{weight, Precedes};
ghost use Rattle.block_core.specs.Stores.{head_of, last_rank, flow_of};
ghost use Rattle.block_core.specs.Block.{held, heap_order, rooms, HasSpare};

use crate::waiting::Waiting;
use fabric_core::NodeQueue;
use pifo_core::Pifo;
use std::alloc::{AllocError, Global};
use std::cmp::Reverse;
use std::collections::{BinaryHeap, VecDeque};
use std::marker::Model;

/// The least number of pushes for which room is made at once, since making room visits each flow.
const MARGIN: usize = 8;

/// A queue that keeps the pairs of each flow in a FIFO, as long as the flow's ranks don't fall. The
/// head of each flow is also in a heap. A pair whose rank is below that of a queued pair of its
/// flow goes to a heap of its own.
#[derive(Drop)]
pub struct BlockPifo {
    /// The pairs of each flow in order of arrival. Their ranks don't fall.
    stores: Vec<VecDeque<Waiting>>,
    heads: BinaryHeap<Reverse<Waiting>>,
    spilled: BinaryHeap<Reverse<Waiting>>,
    pushed: u64,
    /// The number of queued pairs.
    waiting: usize,
    /// The number of pushes for which there is room, whatever their flows.
    spare: usize,
}

impl Model for BlockPifo {
    ghost use Rattle.std.specs.Prelude.{◌+◌, ◌≤◌, length, map};
    ghost use Rattle.std.specs.BinaryHeap.{heap_items, heap_len, heap_capacity};
    ghost use Rattle.std.specs.VecDeque.{deque_items};
    ghost use Rattle.block_core.specs.Block.{Block, IsBlock, IsCounted, HasSpare, rooms, queue_in, held};

    ghost Value = { Block };

    ghost view = { λ b. record {
      flows = length b.stores.items;
      entries = queue_in b.pushed (map deque_items b.stores.items) (held (heap_items b.spilled));
      pushes = b.pushed;
      spare = b.spare;
    } };

    ghost invariant = { λ b. IsBlock (map deque_items b.stores.items) (heap_items b.heads) (heap_items b.spilled) b.pushed
        × HasSpare b.spare (rooms b.stores.items)
        × (heap_len b.heads + b.spare ≤ heap_capacity b.heads)
        × (heap_len b.spilled + b.spare ≤ heap_capacity b.spilled)
        × IsCounted b.waiting b.pushed (map deque_items b.stores.items) (held (heap_items b.spilled)) };
}

impl BlockPifo {
    ghost use Rattle.block_core.specs.Block.{spills_in};

    /// Makes an empty queue with this number of flows.
    pub fn new(alloc: Global, flows: u32) -> Result<BlockPifo, AllocError>
        requires some { 1 ≤ flows }
        ensures flows { IfOk result (λ b. b.flows ≡ flows) }
        ensures entries { IfOk result (λ b. b.entries ≡ []) }
        ensures pushes { IfOk result (λ b. b.pushes ≡ 0) }
    {
        let mut stores = Vec::new(alloc);
        for _ in 0..flows {
            stores.push(VecDeque::new(alloc))?;
        }
        Ok(BlockPifo {
            stores,
            heads: BinaryHeap::new(alloc),
            spilled: BinaryHeap::new(alloc),
            pushed: 0,
            waiting: 0,
            spare: 0,
        })
    }

    /// Says whether an entry of a greater rank is queued in the flow of a value.
    pub fn spills(&self, rank: u64, value: u64) -> bool
        ensures { result ≡ spills_in self.now.flows rank value self.now.entries }
    {
        falls(&self.stores[flow_of(self.stores.len(), value)], rank)
    }
}

impl Pifo for BlockPifo {
    ghost use Rattle.std.specs.Prelude.{◌^◌};
    ghost use Rattle.tree_defs.specs.Queue.{put};
    ghost use Rattle.pifo_core.specs.Taking.{Pops};

    ghost entries = { λ b. b.entries };

    ghost pushes = { λ b. b.pushes };

    ghost spare = { λ b. b.spare };

    fn reserve(&mut self, more: usize) -> Result<(), AllocError>
        ensures room { OnOk result (more ≤ self.new.spare) }
        ensures kept { self.old.spare ≤ self.new.spare }
        ensures entries { self.new.entries ≡ self.old.entries }
        ensures pushes { self.new.pushes ≡ self.old.pushes }
        ensures flows { self.new.flows ≡ self.old.flows }
    {
        if more <= self.spare {
            return Ok(());
        }
        let ample = more.max(MARGIN);
        reserve_each(&mut self.stores, ample)?;
        self.heads.reserve(ample)?;
        self.spilled.reserve(ample)?;
        self.spare = ample;
        Ok(())
    }

    fn push(&mut self, rank: u64, value: u64)
        requires room { 1 ≤ self.old.spare }
        requires few { self.old.pushes < 2 ^ 62 }
        ensures entries { self.new.entries ≡ put self.old.entries rank value }
        ensures pushes { self.new.pushes ≡ self.old.pushes + 1 }
        ensures spare { self.new.spare + 1 ≡ self.old.spare }
        ensures flows { self.new.flows ≡ self.old.flows }
    {
        let entry = Waiting {
            rank,
            arrival: self.pushed,
            value,
        };
        let flow = flow_of(self.stores.len(), value);
        self.pushed += 1;
        self.waiting += 1;
        self.spare -= 1;
        if falls(&self.stores[flow], rank) {
            // There is a free slot, so this can't fail.
            let _ = self.spilled.push(Reverse(entry));
            return;
        }
        join_flow(&mut self.stores[flow], &mut self.heads, entry);
    }

    fn pop(&mut self) -> Option<(u64, u64)>
        ensures taken { Pops self.old.entries result self.new.entries }
        ensures pushes { self.new.pushes ≡ self.old.pushes }
        ensures spare { self.old.spare ≤ self.new.spare }
        ensures flows { self.new.flows ≡ self.old.flows }
    {
        if spill_is_first(&self.heads, &self.spilled) {
            let Reverse(first) = self.spilled.pop()?;
            self.waiting -= 1;
            return Some((first.rank, first.value));
        }
        let Reverse(first) = self.heads.pop()?;
        let flow = flow_of(self.stores.len(), first.value);
        leave_flow(&mut self.stores[flow], &mut self.heads);
        self.waiting -= 1;
        Some((first.rank, first.value))
    }

    fn len(&self) -> usize {
        self.waiting
    }

    fn pushed(&self) -> u64 {
        self.pushed
    }
}

impl NodeQueue for BlockPifo {
    ghost entries = { λ b. b.entries };

    ghost pushes = { λ b. b.pushes };

    ghost spare = { λ b. b.spare };

    ghost tells = { true };

    ghost flows = { λ b. b.flows };

    fn empty(alloc: Global, count: u32) -> Result<BlockPifo, AllocError> {
        BlockPifo::new(alloc, count)
    }

    fn make_room(&mut self) -> Result<(), AllocError> {
        self.reserve(1)
    }

    fn push_pair(&mut self, rank: u64, value: u64) -> bool {
        let spills = self.spills(rank, value);
        self.push(rank, value);
        spills
    }

    fn pop_pair(&mut self) -> Option<(u64, u64)> {
        self.pop()
    }
}

/// Returns the flow of a value, out of `flows`. A value without a flow of its own goes to the last
/// flow.
fn flow_of(flows: usize, value: u64) -> usize
    requires some { 1 ≤ flows }
    ensures flow { result ≡ flow_of flows value }
    ensures within { result < flows }
{
    let last = flows - 1;
    if value < last as u64 {
        value as usize
    } else {
        last
    }
}

/// Says whether a rank is below that of the last entry of a flow.
fn falls(store: &VecDeque<Waiting>, rank: u64) -> bool
    ensures { result ≡ nat_lt rank (last_rank (deque_items store.now)) }
{
    match store.back() {
        Some(last) => rank < last.rank,
        None => false,
    }
}

/// Appends an entry to its flow, and adds it to the heads if it is the flow's first.
fn join_flow(
    store: &mut VecDeque<Waiting>,
    heads: &mut BinaryHeap<Reverse<Waiting>>,
    entry: Waiting,
)
    requires store_room { deque_len store.old < deque_capacity store.old }
    requires heads_room { heap_len heads.old < heap_capacity heads.old }
    ensures items { deque_items store.new ≡ deque_items store.old ++ entry ∷ [] }
    ensures store_room { (deque_len store.new ≡ deque_len store.old + 1) ×
        (deque_capacity store.old ≤ deque_capacity store.new) }
    ensures heads { (f : Waiting → ℕ) →
        weight f (held (heap_items heads.new)) + weight f (head_of (deque_items store.old)) ≡
        weight f (held (heap_items heads.old)) + weight f (head_of (deque_items store.old ++ entry ∷ [])) }
    ensures order { IsHeap heap_order (heap_items heads.old) →
        IsHeap heap_order (heap_items heads.new) }
    ensures heads_room { (heap_len heads.new ≤ heap_len heads.old + 1) ×
        (heap_capacity heads.old ≤ heap_capacity heads.new) }
{
    let leads = store.is_empty();
    store.push_back_reserved(entry);
    if leads {
        // There is room, so this can't fail.
        let _ = heads.push(Reverse(entry));
    }
}

/// Removes the first entry of its flow, and adds the next one to the heads, if there is one.
fn leave_flow(store: &mut VecDeque<Waiting>, heads: &mut BinaryHeap<Reverse<Waiting>>)
    requires heads_room { heap_len heads.old < heap_capacity heads.old }
    ensures items { deque_items store.new ≡ drop 1 (deque_items store.old) }
    ensures store_room { (deque_len store.new ≤ deque_len store.old) ×
        (deque_capacity store.new ≡ deque_capacity store.old) }
    ensures heads { (f : Waiting → ℕ) →
        weight f (held (heap_items heads.new)) ≡ weight f (held (heap_items heads.old)) + weight f (head_of (drop 1 (deque_items store.old))) }
    ensures order { IsHeap heap_order (heap_items heads.old) →
        IsHeap heap_order (heap_items heads.new) }
    ensures heads_room { (heap_len heads.new ≤ heap_len heads.old + 1) ×
        (heap_capacity heads.old ≤ heap_capacity heads.new) }
{
    let _ = store.pop_front();
    if let Some(next) = store.front() {
        // There is room, so this can't fail.
        let _ = heads.push(Reverse(*next));
    }
}

/// Says whether the first departs before the second, or is the same.
fn precedes(first: &Waiting, second: &Waiting) -> bool
    ensures yes { result ≡ true → Precedes first.now second.now }
    ensures no { result ≡ false → Precedes second.now first.now }
{
    first.rank < second.rank || first.rank == second.rank && first.arrival <= second.arrival
}

/// Says whether the first of the spilled entries departs before the first of the heads.
fn spill_is_first(
    heads: &BinaryHeap<Reverse<Waiting>>,
    spilled: &BinaryHeap<Reverse<Waiting>>,
) -> bool
    requires heads { IsHeap heap_order (heap_items heads.now) }
    requires spilled { IsHeap heap_order (heap_items spilled.now) }
    ensures some { result ≡ true → 0 < heap_len spilled.now }
    ensures spill { result ≡ true → (d : Reverse Waiting) →
        AllByRecursion (Precedes (slice_index_or (heap_items spilled.now) 0 d).0) (held (heap_items heads.now)) }
    ensures head { result ≡ false → (d : Reverse Waiting) →
        AllByRecursion (Precedes (slice_index_or (heap_items heads.now) 0 d).0) (held (heap_items spilled.now)) }
{
    match (spilled.peek(), heads.peek()) {
        (Some(spill), Some(head)) => !precedes(&head.0, &spill.0),
        (Some(_), None) => true,
        (None, _) => false,
    }
}

/// Makes room for `more` more entries in each flow.
fn reserve_each(stores: &mut Vec<VecDeque<Waiting>>, more: usize) -> Result<(), AllocError>
    ensures count { length stores.new.items ≡ length stores.old.items }
    ensures items { map deque_items stores.new.items ≡ map deque_items stores.old.items }
    ensures room { OnOk result (HasSpare more (rooms stores.new.items)) }
    ensures kept { (n : ℕ) → HasSpare n (rooms stores.old.items) →
        HasSpare n (rooms stores.new.items) }
{
    for flow in 0..stores.len() {
        stores[flow].reserve(more)?;
    }
    Ok(())
}
