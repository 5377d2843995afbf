//! Paths down a source tree to a leaf.
ghost use Rattle.std.specs.Prelude.{◌≡◌, ℕ, ◌<◌, List, length, slice_index};

use tree_core::{Path, Taken};

/// A path from the root of a source tree to a leaf: the child's index at each node above the leaf,
/// and a rank for each node, the root's first.
pub trait Way {
    ghost digits: { Self → List ℕ };

    ghost ranks: { Self → List ℕ };

    /// Returns the number of steps down.
    fn steps(&self) -> usize
        ensures steps { result ≡ length (digits self.now) };

    /// Returns the index of the child that a step goes to.
    fn digit(&self, step: usize) -> u32
        requires { step < length (digits self.now) }
        ensures digit { result ≡ slice_index (digits self.now) step };

    /// Returns the rank for the node that a step starts from. The rank after the last step is the
    /// leaf's.
    fn rank(&self, step: usize) -> u64
        requires { step < length (ranks self.now) }
        ensures rank { result ≡ slice_index (ranks self.now) step };
}

impl Way for Path {
    ghost use Rattle.tree_core.specs.Paths.{digits as digits_on, ranks as ranks_on};

    ghost digits = { digits_on };

    ghost ranks = { ranks_on };

    fn steps(&self) -> usize {
        self.steps.as_slice().len()
    }

    fn digit(&self, step: usize) -> u32 {
        self.steps.as_slice()[step].0
    }

    fn rank(&self, step: usize) -> u64 {
        match self.steps.as_slice().get(step) {
            Some((_, rank)) => *rank,
            None => self.last,
        }
    }
}

impl Way for Taken {
    ghost digits = { λ taken. taken.digits };

    ghost ranks = { λ taken. taken.ranks };

    fn steps(&self) -> usize {
        self.digits().len()
    }

    fn digit(&self, step: usize) -> u32 {
        self.digits()[step]
    }

    fn rank(&self, step: usize) -> u64 {
        self.ranks()[step]
    }
}
