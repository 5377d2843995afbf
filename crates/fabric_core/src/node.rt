//! The trait of a node's queue.
ghost use Rattle.std.specs.Prelude.{◌≡◌, ◌+◌, ◌^◌, ◌<◌, ◌≤◌, ℕ, Bool, true, [], OnOk, IfOk};
ghost use Rattle.tree_defs.specs.Queue.{Queue, put};
ghost use Rattle.pifo_core.specs.Taking.{Pops};
ghost use Rattle.embed_defs.specs.Spills.{spills_for, spills_at_leaf};
ghost use Rattle.fabric_core.specs.Flow.{NamesBelow};

use pifo_core::{HeapPifo, Pifo};
use std::alloc::{AllocError, Global};

/// The queue of one node of the hardware's tree: a push-in first-out queue (SIGCOMM 2016). It may
/// report which pushes spill.
pub trait NodeQueue {
    /// The pairs of rank and value, in order of arrival.
    ghost entries: { Self → Queue };

    /// The number of pushes since the queue was made.
    ghost pushes: { Self → ℕ };

    /// The number of pushes for which there is room.
    ghost spare: { Self → ℕ };

    /// Whether queues of this kind report which pushes spill.
    ghost tells: { Bool };

    /// The number of flows among which a queue counts spills: one for each child of its node, or
    /// one at a leaf.
    ghost flows: { Self → ℕ };

    /// Makes an empty queue for a node with `count` flows.
    fn empty(alloc: Global, count: u32) -> Result<Self, AllocError>
        requires some { 1 ≤ count }
        ensures entries { IfOk result (λ q. entries q ≡ []) }
        ensures pushes { IfOk result (λ q. pushes q ≡ 0) }
        ensures flows { tells ≡ true → IfOk result (λ q. flows q ≡ count) };

    /// Makes room for one push. The error means out of memory.
    #[inline(always)]
    fn make_room(&mut self) -> Result<(), AllocError>
        ensures room { OnOk result (1 ≤ spare self.new) }
        ensures kept { spare self.old ≤ spare self.new }
        ensures entries { entries self.new ≡ entries self.old }
        ensures pushes { pushes self.new ≡ pushes self.old }
        ensures flows { flows self.new ≡ flows self.old };

    /// Adds a pair, last in order of arrival, and says whether it spilled, if the queue reports
    /// spills. Allocates no memory.
    #[inline(always)]
    fn push_pair(&mut self, rank: u64, value: u64) -> bool
        requires room { 1 ≤ spare self.old }
        requires few { pushes self.old < 2 ^ 62 }
        ensures leaf { flows self.old ≡ 1 → result ≡ spills_at_leaf rank (entries self.old) }
        ensures inner { NamesBelow (flows self.old) (entries self.old) → value < flows self.old →
            result ≡ spills_for rank value (entries self.old) }
        ensures entries { entries self.new ≡ put (entries self.old) rank value }
        ensures pushes { pushes self.new ≡ pushes self.old + 1 }
        ensures spare { spare self.new + 1 ≡ spare self.old }
        ensures flows { flows self.new ≡ flows self.old };

    /// Pops the pair that departs next: its rank and its value. Returns `None` only if the queue is
    /// empty.
    #[inline(always)]
    fn pop_pair(&mut self) -> Option<(u64, u64)>
        ensures taken { Pops (entries self.old) result (entries self.new) }
        ensures pushes { pushes self.new ≡ pushes self.old }
        ensures spare { spare self.old ≤ spare self.new }
        ensures flows { flows self.new ≡ flows self.old };
}

impl NodeQueue for HeapPifo {
    ghost use Rattle.std.specs.Prelude.{false};

    ghost entries = { λ h. h.entries };

    ghost pushes = { λ h. h.pushes };

    ghost spare = { λ h. h.spare };

    ghost tells = { false };

    ghost flows = { λ _. 0 };

    fn empty(alloc: Global, _count: u32) -> Result<HeapPifo, AllocError> {
        Ok(HeapPifo::new(alloc))
    }

    #[inline(always)]
    fn make_room(&mut self) -> Result<(), AllocError> {
        self.reserve(1)
    }

    #[inline(always)]
    fn push_pair(&mut self, rank: u64, value: u64) -> bool {
        self.push(rank, value);
        false
    }

    #[inline(always)]
    fn pop_pair(&mut self) -> Option<(u64, u64)> {
        self.pop()
    }
}
