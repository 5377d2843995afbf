//! A queue that keeps in-order arrivals in a FIFO and the others in a binary heap.
ghost use Rattle.std.specs.Prelude.{◌≡◌, ◌+◌, ◌≤◌, ◌<◌, ◌↔◌, true, [], ◌∷◌, map, drop, vec_len, vec_capacity, IfNone, IfSome, OnOk, OnSome, IsSome, slice_index_or};
ghost use Rattle.std.specs.List.Sorted.{IsPermutation};
ghost use Rattle.std.specs.BinaryHeap.{heap_items, heap_len, heap_capacity, IsHeap, IsUpperBound, KeepsHeap, PopsGreatest, HeapUnchanged};
ghost use Rattle.pifo_core.specs.Held.{wide, InLeavingOrder};
ghost use Rattle.pifo_core.specs.Heaped.{leads, heap_order, aside, top_of, TopIsFirst, IsUpTo};

use crate::held::{Brief, Held};
use crate::pifo::Pifo;
use std::alloc::{AllocError, Global};
use std::cmp::Reverse;
use std::collections::BinaryHeap;
use std::marker::Model;

/// The least number of entries for which a part of a queue allocates memory, so that short queues
/// seldom grow.
const LEAST: usize = 16;

/// The same after that many pushes, so that short queues with much traffic seldom move entries.
const BUSY: usize = 64;

/// A queue that keeps pairs which arrive in dequeue order in a FIFO (the run). The others are kept
/// in a binary heap, with the first to be dequeued on top.
#[derive(Drop)]
pub struct HeapPifo {
    /// Entries in dequeue order. A pair is appended here if it fits in a `Brief` and its rank isn't
    /// below that of another entry of the run.
    run: Vec<Brief>,
    /// How many entries at the front of `run` were dequeued. They are removed all at once when a
    /// push finds no room, so that no push or pop has to wrap around.
    head: usize,
    /// All other pairs.
    heap: BinaryHeap<Reverse<Held>>,
    pushed: u64,
    /// The number of pushes for which there is room. `BinaryHeap` only guarantees that a push
    /// doesn't reduce its capacity.
    spare: usize,
    /// The rank that was last appended to the run. No rank in the run is above it.
    last: u64,
}

impl Model for HeapPifo {
    ghost use Rattle.std.specs.Prelude.{◌+◌, ◌≤◌, drop, vec_len, vec_capacity};
    ghost use Rattle.std.specs.BinaryHeap.{heap_items, heap_len, heap_capacity};
    ghost use Rattle.pifo_core.specs.Held.{queue_of};
    ghost use Rattle.pifo_core.specs.Heaped.{IsHeaped, IsUpTo, held_of_both};
    ghost use Rattle.pifo_core.specs.Sorted.{Contents};

    ghost Value = { Contents };

    ghost view = { λ h. record { entries = queue_of (held_of_both (drop h.head h.run.items) (heap_items h.heap)); pushes = h.pushed; spare = h.spare } };

    ghost invariant = { λ h. IsHeaped (drop h.head h.run.items) (heap_items h.heap) h.pushed × (vec_len h.run + h.spare ≤ vec_capacity h.run) × (heap_len h.heap + h.spare ≤ heap_capacity h.heap) × IsUpTo h.last (drop h.head h.run.items) × (h.head ≤ vec_len h.run) };
}

impl HeapPifo {
    /// Returns an empty queue. Allocates no memory.
    pub fn new(alloc: Global) -> HeapPifo
        ensures entries { result.entries ≡ [] }
        ensures pushes { result.pushes ≡ 0 }
    {
        HeapPifo {
            run: Vec::new(alloc),
            head: 0,
            heap: BinaryHeap::new(alloc),
            pushed: 0,
            spare: 0,
            last: 0,
        }
    }

    /// Makes room for `more` pushes. The dequeued entries go first if they are a sixteenth of the
    /// others or more. Then each part grows if it still lacks the room: to twice its capacity, and to
    /// `LEAST` entries or more. The error means out of memory.
    #[inline(never)]
    fn grow(&mut self, more: usize) -> Result<(), AllocError>
        requires short { self.old.spare < more }
        ensures room { OnOk result (more ≤ self.new.spare) }
        ensures kept { self.old.spare ≤ self.new.spare }
        ensures entries { self.new.entries ≡ self.old.entries }
        ensures pushes { self.new.pushes ≡ self.old.pushes }
    {
        let queued = self.run.len() - self.head;
        if self.head >= queued / 16 {
            drop_dequeued(&mut self.run, self.head);
            self.head = 0;
        }
        let least = if self.pushed < BUSY as u64 {
            LEAST
        } else {
            BUSY
        };
        let run_more = more.max(least.saturating_sub(self.run.len()));
        self.run.reserve(run_more)?;
        let heap_more = more.max(least.saturating_sub(self.heap.len()));
        self.heap.reserve(heap_more)?;
        let in_run = self.run.capacity() - self.run.len();
        let in_heap = self.heap.capacity() - self.heap.len();
        // With more room, the entries would spread over more memory before the next removal.
        let enough = more.max(least).max(queued / 8);
        self.spare = in_run.min(in_heap).min(enough);
        Ok(())
    }
}

impl Pifo for HeapPifo {
    ghost entries = { λ h. h.entries };

    ghost pushes = { λ h. h.pushes };

    ghost spare = { λ h. h.spare };

    #[inline(always)]
    fn reserve(&mut self, more: usize) -> Result<(), AllocError> {
        if more <= self.spare {
            return Ok(());
        }
        self.grow(more)
    }

    #[inline(always)]
    fn push(&mut self, rank: u64, value: u64) {
        let most = u64::from(u32::MAX);
        // Both parts have room for one more entry, so neither push can fail.
        if self.pushed <= most
            && value <= most
            && is_behind(&self.run[self.head..], self.last, rank)
        {
            let brief = Brief {
                rank,
                arrival: self.pushed as u32,
                value: value as u32,
            };
            self.run.push_reserved(brief);
            self.last = rank;
        } else {
            push_aside(&mut self.heap, rank, self.pushed, value);
        }
        self.pushed += 1;
        self.spare -= 1;
    }

    #[inline(always)]
    fn pop(&mut self) -> Option<(u64, u64)> {
        let queued = &self.run[self.head..];
        if run_leads(queued, &self.heap) {
            let first = *queued.first()?;
            self.head += 1;
            return Some((first.rank, u64::from(first.value)));
        }
        let Reverse(top) = self.heap.peek()?;
        let (rank, value) = (top.rank, top.value);
        drop_top(&mut self.heap);
        Some((rank, value))
    }

    #[inline(always)]
    fn len(&self) -> usize {
        self.run.len() - self.head + self.heap.len()
    }

    fn pushed(&self) -> u64 {
        self.pushed
    }
}

/// Removes the first `head` entries of a run.
fn drop_dequeued(run: &mut Vec<Brief>, head: usize)
    requires there { head ≤ vec_len run.old }
    ensures items { run.new.items ≡ drop head run.old.items }
    ensures len { vec_len run.new + head ≡ vec_len run.old }
    ensures capacity { vec_capacity run.new ≡ vec_capacity run.old }
{
    let queued = run.len() - head;
    run.copy_within(head.., 0);
    run.truncate(queued);
}

/// Returns whether an entry of this rank can be appended to the run, in which no rank is above
/// `last`.
#[inline(always)]
fn is_behind(run: &[Brief], last: u64, rank: u64) -> bool
    requires last { IsUpTo last run.now }
    ensures behind { result ≡ true → IsUpTo rank run.now }
{
    last <= rank || run.is_empty()
}

/// Adds an entry to the heap, which has room for it. It takes the entry's fields, so that none is
/// read back from memory.
#[inline(never)]
fn push_aside(heap: &mut BinaryHeap<Reverse<Held>>, rank: u64, arrival: u64, value: u64)
    requires room { heap_len heap.old < heap_capacity heap.old }
    ensures len { heap_len heap.new ≡ heap_len heap.old + 1 }
    ensures capacity { heap_capacity heap.old ≤ heap_capacity heap.new }
    ensures permutation { IsPermutation (aside rank arrival value ∷ heap_items heap.old)
        (heap_items heap.new) }
    ensures heap_order { KeepsHeap heap_order (heap_items heap.old) (heap_items heap.new) }
{
    let held = Held {
        rank,
        arrival,
        value,
    };
    let _ = heap.push(Reverse(held));
}

/// Drops the entry at the top of the heap.
#[inline(never)]
fn drop_top(heap: &mut BinaryHeap<Reverse<Held>>)
    requires some { 0 < heap_len heap.old }
    ensures len { heap_len heap.new + 1 ≡ heap_len heap.old }
    ensures capacity { heap_capacity heap.new ≡ heap_capacity heap.old }
    ensures permutation { IsPermutation (heap_items heap.old)
        (top_of (heap_items heap.old) ∷ heap_items heap.new) }
    ensures heap_order { PopsGreatest heap_order (heap_items heap.old)
        (top_of (heap_items heap.old)) (heap_items heap.new) }
    ensures below_top { IsHeap heap_order (heap_items heap.old) →
        IsUpperBound heap_order (top_of (heap_items heap.old)) (heap_items heap.new) }
{
    let Some(_top) = heap.pop() else {
        unreachable!()
    };
}

/// Returns whether the next pair to be dequeued is the first of the run.
#[inline(always)]
fn run_leads(run: &[Brief], heap: &BinaryHeap<Reverse<Held>>) -> bool
    ensures leads { result ≡ leads run.now (heap_items heap.now) }
    ensures top { IsHeap heap_order (heap_items heap.now) → TopIsFirst (heap_items heap.now) }
{
    let Some(Reverse(top)) = heap.peek() else {
        return !run.is_empty();
    };
    match run.first() {
        Some(first) => {
            let first = Held {
                rank: first.rank,
                arrival: u64::from(first.arrival),
                value: u64::from(first.value),
            };
            first < *top
        }
        None => false,
    }
}
