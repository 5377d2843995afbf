//! The trait of a push-in first-out queue.
ghost use Rattle.std.specs.Prelude.{◌≡◌, ◌+◌, ◌^◌, ◌<◌, ◌≤◌, ℕ, length, OnOk};
ghost use Rattle.tree_defs.specs.Queue.{Queue, put};
ghost use Rattle.pifo_core.specs.Taking.{Pops};

use std::alloc::AllocError;

/// A push-in first-out queue (SIGCOMM 2016) of pairs of a rank and a value. The pair of the least
/// rank is dequeued first; ties are broken in order of arrival.
pub trait Pifo {
    /// The pairs of rank and value, in order of arrival.
    ghost entries: { Self → Queue };

    /// The number of pushes since the queue was created.
    ghost pushes: { Self → ℕ };

    /// The number of pushes for which there is room.
    ghost spare: { Self → ℕ };

    /// Makes room for `more` pushes. The error means out of memory.
    fn reserve(&mut self, more: usize) -> Result<(), AllocError>
        ensures room { OnOk result (more ≤ spare self.new) }
        ensures kept { spare self.old ≤ spare self.new }
        ensures entries { entries self.new ≡ entries self.old }
        ensures pushes { pushes self.new ≡ pushes self.old };

    /// Adds a pair as the last to arrive. Allocates no memory.
    fn push(&mut self, rank: u64, value: u64)
        requires room { 1 ≤ spare self.old }
        requires few { pushes self.old < 2 ^ 62 }
        ensures entries { entries self.new ≡ put (entries self.old) rank value }
        ensures pushes { pushes self.new ≡ pushes self.old + 1 }
        ensures spare { spare self.new + 1 ≡ spare self.old };

    /// Dequeues the next pair and returns its rank and value, or `None` exactly if the queue is
    /// empty.
    fn pop(&mut self) -> Option<(u64, u64)>
        ensures taken { Pops (entries self.old) result (entries self.new) }
        ensures pushes { pushes self.new ≡ pushes self.old }
        ensures spare { spare self.old ≤ spare self.new };

    /// Returns the number of queued pairs.
    fn len(&self) -> usize
        ensures length { result ≡ length (entries self.now) };

    /// Returns the number of pushes since the queue was created.
    fn pushed(&self) -> u64
        ensures pushes { result ≡ pushes self.now };
}
