//! The digits and ranks that a pop takes, starting at the root.
ghost use Rattle.std.specs.Prelude.{◌≡◌, ◌+◌, ◌<◌, [], ◌∷◌, ◌++◌, length, IfOk};

use std::alloc::{AllocError, Global};
use std::marker::Model;

/// The children's indices and the ranks that a pop took on its path from the root down, with room
/// for a number of levels.
#[derive(Drop)]
pub struct Taken {
    digits: Vec<u32>,
    ranks: Vec<u64>,
    room: u32,
}

impl Model for Taken {
    ghost use Rattle.std.specs.Prelude.{◌≤◌, ◌<◌, vec_capacity, vec_len};
    ghost use Rattle.tree_core.specs.Paths.{Way, way_code};

    ghost Value = { Way };

    ghost coded = { way_code };

    ghost view = { λ a. record { digits = a.digits.items; ranks = a.ranks.items; room = a.room } };

    ghost invariant = { λ a. (vec_len a.digits ≤ a.room) × (a.room ≤ vec_capacity a.digits) × (a.room < vec_capacity a.ranks) };
}

impl Taken {
    /// Returns two empty lists, with room for `depth` digits and `depth + 1` ranks. The error means
    /// out of memory.
    pub fn new(alloc: Global, depth: u32) -> Result<Taken, AllocError>
        ensures digits { IfOk result (λ t. t.digits ≡ []) }
        ensures ranks { IfOk result (λ t. t.ranks ≡ []) }
        ensures room { IfOk result (λ t. t.room ≡ depth) }
    {
        let levels = depth as usize;
        Ok(Taken {
            digits: Vec::with_capacity(alloc, levels)?,
            ranks: Vec::with_capacity(alloc, levels + 1)?,
            room: depth,
        })
    }

    #[inline(always)]
    pub fn digits(&self) -> &[u32]
        ensures digits { result.now ≡ self.now.digits }
    {
        self.digits.as_slice()
    }

    #[inline(always)]
    pub fn ranks(&self) -> &[u64]
        ensures ranks { result.now ≡ self.now.ranks }
    {
        self.ranks.as_slice()
    }

    /// Returns the number of levels below the root for which there is room.
    pub fn room(&self) -> u32
        ensures room { result ≡ self.now.room }
    {
        self.room
    }

    #[inline(always)]
    pub fn clear(&mut self)
        ensures digits { self.new.digits ≡ [] }
        ensures ranks { self.new.ranks ≡ [] }
        ensures room { self.new.room ≡ self.old.room }
    {
        self.digits.truncate(0);
        self.ranks.truncate(0);
    }

    /// Appends a child's index and the rank that was taken at its parent.
    #[inline(always)]
    pub fn step(&mut self, digit: u32, rank: u64)
        requires room { length self.old.digits < self.old.room }
        requires even { length self.old.ranks ≡ length self.old.digits }
        ensures digits { self.new.digits ≡ self.old.digits ++ digit ∷ [] }
        ensures ranks { self.new.ranks ≡ self.old.ranks ++ rank ∷ [] }
        ensures room { self.new.room ≡ self.old.room }
    {
        self.digits.push_reserved(digit);
        self.ranks.push_reserved(rank);
    }

    /// Appends the rank that was taken at the leaf.
    #[inline(always)]
    pub fn last(&mut self, rank: u64)
        requires even { length self.old.ranks ≡ length self.old.digits }
        ensures digits { self.new.digits ≡ self.old.digits }
        ensures ranks { self.new.ranks ≡ self.old.ranks ++ rank ∷ [] }
        ensures room { self.new.room ≡ self.old.room }
    {
        self.ranks.push_reserved(rank);
    }
}
