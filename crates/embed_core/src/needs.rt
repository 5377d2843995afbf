//! The heights that the nodes of a topology need.
ghost use Rattle.std.specs.Prelude.{◌≡◌, ◌==◌, ◌^◌, ◌<◌, ◌≤◌, ◌↔◌, IfOk, IsTrue, EachIndex, slice_index, count_by};
ghost use Rattle.tree_defs.specs.Tree.{nodes, trees_of, root_of, most_nodes};
ghost use Rattle.tree_defs.specs.Topology.{IsBranched};
ghost use Rattle.tree_core.specs.Shape.{topology};
ghost use Rattle.tree_core.specs.TreeContents.{branch};
ghost use Rattle.embed_defs.specs.Need.{IsLeast, FitsBelow, AreNeedsOf, HasHeight, enough};
ghost use Rattle.embed_defs.specs.Target.{IsInRange};
ghost use Rattle.embed_core.specs.Range.{levels_of};

use std::alloc::{AllocError, Global};
use std::marker::Model;
use target_core::Target;
use tree_core::Topo;

/// A topology with the need of each node.
#[derive(Drop)]
pub struct Needs {
    need: u32,
    children: Vec<Needs>,
}

impl Model for Needs {
    ghost use Rattle.std.specs.Coded.{coded_ℕ};
    ghost use Rattle.std.specs.Prelude.{ℕ};
    ghost use Rattle.std.proofs.Common.{arith};
    ghost use Rattle.tree_defs.specs.Tree.{Tree, trees_of, nodes};
    ghost use Rattle.tree_defs.specs.Codes.{tree_code};
    ghost use Rattle.tree_core.specs.TreeContents.{branch};
    ghost use Rattle.embed_core.specs.Shrinking.{most_le-nodes};

    ghost Value = { Tree ℕ };

    ghost coded = { tree_code coded_ℕ };

    ghost view = { λ a. branch a.need (trees_of a.children.items) };

    ghost size = { nodes };

    ghost size_decreases = { λ a h. omega (arith, most_le-nodes a.need a.children.items) };
}

impl Needs {
    /// Computes the needs of all nodes of a topology.
    pub fn of(alloc: Global, topo: &Topo, target: &Target) -> Result<Needs, AllocError>
        requires branched { IsBranched (topology topo.now) }
        requires few { nodes (topology topo.now) ≤ most_nodes }
        requires range { IsInRange target.now.arities target.now.above }
        ensures needs { IfOk result (λ needs. AreNeedsOf (levels_of target.now) (topology topo.now)
            needs) }
    {
        match topo {
            Topo::Leaf => Ok(Needs {
                need: 0,
                children: Vec::new(alloc),
            }),
            Topo::Inner(inner) => {
                let mut children = Vec::new(alloc);
                let mut needs = Vec::new(alloc);
                for child in inner {
                    let below = Needs::of(alloc, child, target)?;
                    needs.push(below.need())?;
                    children.push(below)?;
                }
                Ok(Needs {
                    need: least_above(&needs, target),
                    children,
                })
            }
        }
    }

    /// Returns the needs of the root's children.
    pub fn children(&self) -> &[Needs]
        ensures children { branch (root_of self.now) (trees_of result.now) ≡ self.now }
    {
        &self.children
    }

    /// Says whether a complete tree of this height has room.
    pub fn fit(&self, height: usize) -> bool
        ensures fit { IsTrue result ↔ HasHeight height self.now }
    {
        if self.children.is_empty() {
            height == 0
        } else {
            self.need as usize <= height
        }
    }

    /// Returns the need of the root.
    pub fn need(&self) -> u32
        ensures need { result ≡ root_of self.now }
    {
        self.need
    }
}

/// Returns the least height of a node below which subtrees of these heights fit.
fn least_above(needs: &[u32], target: &Target) -> u32
    requires few { enough needs.now < 2 ^ 32 }
    requires range { IsInRange target.now.arities target.now.above }
    ensures least { IsLeast (FitsBelow (levels_of target.now) needs.now) result }
{
    let mut height = 0;
    let mut carried = 0;
    while carried > 1 || !are_below(needs, height) {
        let nodes = carried + count_of(needs, height);
        carried = nodes.div_ceil(target.arity(height as usize) as usize);
        height += 1;
    }
    height
}

fn are_below(needs: &[u32], height: u32) -> bool
    ensures below { IsTrue result ↔ EachIndex needs.now (λ k. slice_index needs.now k < height) }
{
    needs.iter().all(|need| *need < height)
}

fn count_of(needs: &[u32], height: u32) -> usize
    ensures count { result ≡ count_by (λ need. need == height) needs.now }
{
    needs.iter().filter(|need| **need == height).count()
}
