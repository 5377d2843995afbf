//! The trait of the hardware's queues: a complete tree that is configured, pushed and popped.
ghost use Rattle.std.specs.Prelude.{◌≡◌, ◌+◌, ◌^◌, ◌<◌, ◌↔◌, ℕ, List, Option, [], option_map, OnOk, OnErr, IsNone, IfNone, IfSome};
ghost use Rattle.embed_defs.specs.Family.{Address, Family, SameQueues, IsEmpty, IsLeafAddress, HasRoomAlong, SameRoom, HasNoLessRoom, less_room_along, push_along, PopsFrom};
ghost use Rattle.embed_defs.specs.Spills.{spills_along};
ghost use Rattle.embed_defs.specs.Target.{IsTarget};
ghost use Rattle.fabric_core.specs.Paths.{IsPath, HasPlaces, IsUnchanged, KeptByPush, KeptByPop};

use std::alloc::AllocError;

/// A complete tree of push-in first-out queues, as in a switch (SIGCOMM 2016). The number of
/// children may differ from level to level, but is the same at all nodes of a level.
pub trait Fabric {
    /// The number of children of the nodes of each level, from the root down.
    ghost shape: { Self → List ℕ };

    /// The queue at each address. It is empty if the tree has no such address.
    ghost queues: { Self → Family };

    /// The number of pushes so far.
    ghost pushed: { Self → ℕ };

    /// The number of pops so far, including those of an empty tree.
    ghost popped: { Self → ℕ };

    /// The number of times that a push passed an entry of a greater rank for the same child at a
    /// node on its path, or `None` if the fabric doesn't count spills.
    ghost spilled: { Self → Option ℕ };

    /// The number of free slots of the queue at an address.
    ghost room: { Self → Address → ℕ };

    /// Changes the shape and empties all queues. The error means out of memory.
    fn configure(&mut self, arities: &[u32]) -> Result<(), AllocError>
        requires target { IsTarget arities.now }
        ensures shaped { OnOk result (shape self.new ≡ arities.now) }
        ensures emptied { OnOk result (IsEmpty (queues self.new)) }
        ensures shape_stays { OnErr result (shape self.new ≡ shape self.old) }
        ensures queues_stay { OnErr result (SameQueues (queues self.new) (queues self.old)) }
        ensures room_stays { OnErr result (HasNoLessRoom (room self.old) (room self.new)) }
        ensures pushed { pushed self.new ≡ pushed self.old }
        ensures popped { popped self.new ≡ popped self.old }
        ensures spilled { spilled self.new ≡ spilled self.old };

    /// Makes room for one more entry at each node on the path to a leaf.
    fn reserve(&mut self, digits: &[u32]) -> Result<(), AllocError>
        requires leaf { IsLeafAddress (shape self.old) digits.now }
        ensures room { OnOk result (HasRoomAlong (room self.new) digits.now) }
        ensures kept { HasNoLessRoom (room self.old) (room self.new) }
        ensures queues { SameQueues (queues self.new) (queues self.old) }
        ensures shape { shape self.new ≡ shape self.old }
        ensures pushed { pushed self.new ≡ pushed self.old }
        ensures popped { popped self.new ≡ popped self.old }
        ensures spilled { spilled self.new ≡ spilled self.old };

    /// Pushes a rank and the next digit at each inner node on the path to a leaf, and the last rank
    /// and the item at the leaf.
    fn push(&mut self, digits: &[u32], ranks: &[u64], item: u64)
        requires path { IsPath (shape self.old) digits.now ranks.now }
        requires room { HasRoomAlong (room self.old) digits.now }
        requires few { pushed self.old < 2 ^ 62 }
        ensures queues { SameQueues (queues self.new) (push_along digits.now ranks.now item
            (queues self.old)) }
        ensures less_room { SameRoom (room self.new) (less_room_along digits.now (room self.old)) }
        ensures pushed { pushed self.new ≡ pushed self.old + 1 }
        ensures spilled { spilled self.new ≡ option_map (λ n. n +
            spills_along digits.now ranks.now (queues self.old)) (spilled self.old) }
        ensures rest { KeptByPush (shape self.old) (shape self.new) (popped self.old)
            (popped self.new) };

    /// Pops the root's queue, then the queue that each popped digit names, down to an item. The
    /// popped digits and ranks are written to the slices.
    fn pop(&mut self, digits: &mut [u32], ranks: &mut [u64]) -> Option<u64>
        requires path { HasPlaces (shape self.old) digits.old ranks.old }
        requires few { popped self.old < 2 ^ 62 }
        ensures none { IsNone result ↔ (queues self.old [] ≡ []) }
        ensures taken { IfSome result (λ item. PopsFrom (shape self.old) (queues self.old) item
            digits.new ranks.new (queues self.new)) }
        ensures stays { IfNone result (IsUnchanged (queues self.old) (queues self.new) digits.old
            digits.new ranks.old ranks.new) }
        ensures kept { HasNoLessRoom (room self.old) (room self.new) }
        ensures popped { popped self.new ≡ popped self.old + 1 }
        ensures rest { KeptByPop (shape self.old) (shape self.new) (pushed self.old)
            (pushed self.new) (spilled self.old) (spilled self.new) };

    /// Returns the number of nodes before the leaf of the last pop, level by level from the root. It
    /// is a hint: no clause says that it is right.
    fn last_leaf(&self) -> usize;

    /// Returns the number of pushes so far.
    fn pushes(&self) -> u64
        ensures { result ≡ pushed self.now };

    /// Returns the number of pops so far, including those of an empty tree.
    fn pops(&self) -> u64
        ensures { result ≡ popped self.now };
}
