//! A source tree: each node has a queue and a list of children.
ghost use Rattle.std.specs.Prelude.{◌≡◌, ◌+◌, ◌^◌, ◌<◌, ◌≤◌, ◌↔◌, length, OnOk, IsNone, IfNone, IfSome, IfOk};
ghost use Rattle.tree_defs.specs.Tree.{LeadsToLeaf, depth, most_levels};
ghost use Rattle.tree_defs.specs.Topology.{IsBranched};
ghost use Rattle.tree_defs.specs.SourceTree.{push, pop, IsWellFormed, size, empty_tree};
ghost use Rattle.tree_core.specs.Paths.{digits, ranks, digits_of, ranks_of};
ghost use Rattle.tree_core.specs.Shape.{topology};
ghost use Rattle.tree_core.specs.Places.{HasRoom, HasNoFewer, without_places};
ghost use Rattle.tree_core.specs.TreeContents.{PopsOnto, PopsTo};

use crate::path::Path;
use crate::taken::Taken;
use crate::topo::Topo;
use pifo_core::{HeapPifo, Pifo};
use std::alloc::{AllocError, Global};
use std::marker::Model;

/// A tree of push-in first-out queues (OOPSLA 2023), with packet numbers at the leaves and
/// children's indices at the inner nodes. It is always well formed.
#[derive(Drop)]
pub struct SourceTree {
    queue: HeapPifo,
    children: Vec<SourceTree>,
}

impl Model for SourceTree {
    ghost use Rattle.std.proofs.Common.{arith};
    ghost use Rattle.tree_core.specs.TreeContents.{TreeContents, contents_code, grown, size_of, IsSound};
    ghost use Rattle.tree_core.specs.Shrinking.{most_le-nodes};

    ghost Value = { TreeContents };

    ghost coded = { contents_code };

    ghost view = { λ a. grown a.queue a.children.items };

    ghost invariant = { λ a. IsSound a.queue a.children.items };

    ghost size = { size_of };

    ghost size_decreases = { λ a h. omega (arith, most_le-nodes a.queue a.children.items) };
}

impl SourceTree {
    /// Returns a tree of this topology whose queues are all empty. The topology has at most 64
    /// levels, since each level is a nested call. The error means out of memory.
    pub fn new(alloc: Global, topo: &Topo) -> Result<SourceTree, AllocError>
        requires levels { depth (topology topo.now) ≤ most_levels }
        requires branched { IsBranched (topology topo.now) }
        ensures tree { IfOk result (λ t. t.tree ≡ empty_tree (topology topo.now)) }
        ensures pushes { IfOk result (λ t. t.pushes ≡ 0) }
    {
        match topo {
            Topo::Leaf => Ok(SourceTree {
                queue: HeapPifo::new(alloc),
                children: Vec::new(alloc),
            }),
            Topo::Inner(inner) => {
                let mut children = Vec::new(alloc);
                for child in inner {
                    children.push(SourceTree::new(alloc, child)?)?;
                }
                Ok(SourceTree {
                    queue: HeapPifo::new(alloc),
                    children,
                })
            }
        }
    }

    /// Makes room for one push at each node on the path to a leaf. The error means out of memory.
    #[inline]
    pub fn reserve(&mut self, digits: &[u32]) -> Result<(), AllocError>
        requires leaf { LeadsToLeaf self.old.tree digits.now }
        ensures tree { self.new.tree ≡ self.old.tree }
        ensures pushes { self.new.pushes ≡ self.old.pushes }
        ensures room { OnOk result (HasRoom self.new.spare digits.now) }
        ensures kept { HasNoFewer self.old.spare self.new.spare }
    {
        self.queue.reserve(1)?;
        match digits {
            [] => Ok(()),
            [child, deeper @ ..] => self.children[*child as usize].reserve(deeper),
        }
    }

    /// Pushes a packet's number along a path to a leaf. Allocates no memory.
    pub fn push(&mut self, path: &Path, value: u64)
        requires leaf { LeadsToLeaf self.old.tree (digits path.now) }
        requires room { HasRoom self.old.spare (digits path.now) }
        requires few { self.old.pushes < 2 ^ 62 }
        ensures tree { self.new.tree ≡ push self.old.tree (digits path.now) (ranks path.now) value }
        ensures pushes { self.new.pushes ≡ self.old.pushes + 1 }
        ensures spare { self.new.spare ≡ without_places self.old.spare (digits path.now) }
    {
        self.push_along(path.steps.as_slice(), path.last, value);
    }

    /// Pushes a packet's number to the leaf at an address, with a rank for each node on the path to
    /// it. Allocates no memory.
    #[inline]
    pub fn push_to(&mut self, address: &[u32], ranks: &[u64], value: u64)
        requires leaf { LeadsToLeaf self.old.tree address.now }
        requires ranks { length ranks.now ≡ length address.now + 1 }
        requires room { HasRoom self.old.spare address.now }
        requires few { self.old.pushes < 2 ^ 62 }
        ensures tree { self.new.tree ≡ push self.old.tree address.now ranks.now value }
        ensures pushes { self.new.pushes ≡ self.old.pushes + 1 }
        ensures spare { self.new.spare ≡ without_places self.old.spare address.now }
    {
        let [rank, lower @ ..] = ranks else {
            unreachable!()
        };
        match address {
            [] => self.queue.push(*rank, value),
            [digit, deeper @ ..] => {
                self.queue.push(*rank, u64::from(*digit));
                self.children[*digit as usize].push_to(deeper, lower, value);
            }
        }
    }

    /// Pops a packet's number, and sets `taken` to the digits and ranks on its path. Returns `None`
    /// exactly if the tree is empty; `taken` is then unchanged. Allocates no memory.
    #[inline]
    pub fn pop(&mut self, taken: &mut Taken) -> Option<u64>
        requires room { depth self.old.tree ≤ taken.old.room }
        ensures empty { IsNone result ↔ (size self.old.tree ≡ 0) }
        ensures unchanged { IfNone result (self.new ≡ self.old) }
        ensures untouched { IfNone result (taken.new ≡ taken.old) }
        ensures popped { IfSome result (λ v. PopsTo self.old.tree v taken.new self.new.tree) }
        ensures pushes { self.new.pushes ≡ self.old.pushes }
        ensures spare { HasNoFewer self.old.spare self.new.spare }
        ensures room { taken.new.room ≡ taken.old.room }
    {
        if self.size() == 0 {
            return None;
        }
        taken.clear();
        Some(self.pop_onto(taken))
    }

    /// Returns the number of packets.
    pub fn size(&self) -> u64
        ensures size { result ≡ size self.now.tree }
        ensures well_formed { IsWellFormed self.now.tree }
    {
        self.queue.len() as u64
    }

    fn push_along(&mut self, steps: &[(u32, u64)], last: u64, value: u64)
        requires leaf { LeadsToLeaf self.old.tree (digits_of steps.now) }
        requires room { HasRoom self.old.spare (digits_of steps.now) }
        requires few { self.old.pushes < 2 ^ 62 }
        ensures tree { self.new.tree ≡ push self.old.tree (digits_of steps.now)
            (ranks_of steps.now last) value }
        ensures pushes { self.new.pushes ≡ self.old.pushes + 1 }
        ensures spare { self.new.spare ≡ without_places self.old.spare (digits_of steps.now) }
    {
        match steps {
            [] => self.queue.push(last, value),
            [(child, rank), deeper @ ..] => {
                self.queue.push(*rank, u64::from(*child));
                self.children[*child as usize].push_along(deeper, last, value);
            }
        }
    }

    #[inline]
    fn pop_onto(&mut self, taken: &mut Taken) -> u64
        requires held { 0 < size self.old.tree }
        requires room { length taken.old.digits + depth self.old.tree ≤ taken.old.room }
        requires even { length taken.old.ranks ≡ length taken.old.digits }
        ensures popped { PopsOnto self.old.tree taken.old taken.new result self.new.tree }
        ensures pushes { self.new.pushes ≡ self.old.pushes }
        ensures spare { HasNoFewer self.old.spare self.new.spare }
        ensures room { taken.new.room ≡ taken.old.room }
    {
        let Some((rank, value)) = self.queue.pop() else {
            unreachable!()
        };
        if self.children.is_empty() {
            taken.last(rank);
            return value;
        }
        taken.step(value as u32, rank);
        self.children[value as usize].pop_onto(taken)
    }
}
