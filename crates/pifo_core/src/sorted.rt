//! A queue kept in dequeue order.
ghost use Rattle.std.specs.Prelude.{◌≡◌, ◌<◌, ◌≤◌, [], length, take, drop};
ghost use Rattle.std.specs.List.{AllByRecursion};
ghost use Rattle.pifo_core.specs.Held.{InLeavingOrder};

use crate::held::Held;
use crate::pifo::Pifo;
use std::alloc::{AllocError, Global};
use std::marker::Model;

/// A queue whose pairs are kept in dequeue order: by rank, then by sequence number.
#[derive(Drop)]
pub struct SortedPifo {
    held: Vec<Held>,
    pushed: u64,
}

impl Model for SortedPifo {
    ghost use Rattle.std.specs.Prelude.{◌-◌, vec_len, vec_capacity};
    ghost use Rattle.pifo_core.specs.Held.{queue_of};
    ghost use Rattle.pifo_core.specs.Sorted.{Contents, IsKept};

    ghost Value = { Contents };

    ghost view = { λ s. record { entries = queue_of s.held.items; pushes = s.pushed; spare = vec_capacity s.held - vec_len s.held } };

    ghost invariant = { λ s. IsKept s.held.items s.pushed };
}

impl SortedPifo {
    /// Returns an empty queue. Allocates no memory.
    pub fn new(alloc: Global) -> SortedPifo
        ensures entries { result.entries ≡ [] }
        ensures pushes { result.pushes ≡ 0 }
    {
        SortedPifo {
            held: Vec::new(alloc),
            pushed: 0,
        }
    }
}

impl Pifo for SortedPifo {
    ghost entries = { λ s. s.entries };

    ghost pushes = { λ s. s.pushes };

    ghost spare = { λ s. s.spare };

    fn reserve(&mut self, more: usize) -> Result<(), AllocError> {
        self.held.reserve(more)
    }

    fn push(&mut self, rank: u64, value: u64) {
        let arrival = self.pushed;
        let place = place_for(&self.held, rank);
        // There is room for one more entry, so this can't fail.
        let _ = self.held.insert(
            place,
            Held {
                rank,
                arrival,
                value,
            },
        );
        self.pushed += 1;
    }

    fn pop(&mut self) -> Option<(u64, u64)> {
        if self.held.is_empty() {
            return None;
        }
        let first = self.held.remove(0);
        Some((first.rank, first.value))
    }

    fn len(&self) -> usize {
        self.held.len()
    }

    fn pushed(&self) -> u64 {
        self.pushed
    }
}

/// Returns the index after all entries of this rank or a lower one.
fn place_for(held: &[Held], rank: u64) -> usize
    requires { InLeavingOrder held.now }
    ensures bound { result ≤ length held.now }
    ensures before { AllByRecursion (λ e. e.rank ≤ rank) (take result held.now) }
    ensures behind { AllByRecursion (λ e. rank < e.rank) (drop result held.now) }
{
    held.partition_point(|e| e.rank <= rank)
}
