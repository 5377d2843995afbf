//! The shape of a complete tree whose nodes stand in an array, level by level from the root.
ghost use Rattle.std.specs.Prelude.{◌≡◌, ◌+◌, ◌*◌, ◌<◌, ◌≤◌, ◌^◌, ℕ, length, slice_index_or, IfOk, OnOk};
ghost use Rattle.embed_defs.specs.Target.{IsTarget};
ghost use Rattle.fabric_core.specs.Children.{inner_nodes, first_child};

use std::alloc::{AllocError, Global};
use std::marker::Model;

/// The number of children of the nodes of each level, from the root down, with the index of the
/// first child of each inner node.
#[derive(Drop)]
pub struct Shape {
    arities: Vec<u32>,
    children: Vec<u32>,
}

impl Model for Shape {
    ghost use Rattle.std.specs.Prelude.{List, ℕ};
    ghost use Rattle.fabric_core.specs.Children.{AreFirstChildren};

    ghost Value = { List ℕ };

    ghost view = { λ s. s.arities.items };

    ghost invariant = { λ s. AreFirstChildren s.arities.items s.children.items };
}

impl Shape {
    /// Makes the shape of the complete tree of these arities.
    pub fn new(alloc: Global, arities: &[u32]) -> Result<Shape, AllocError>
        requires target { IsTarget arities.now }
        ensures arities { IfOk result (λ s. s ≡ arities.now) }
    {
        let mut children = Vec::new(alloc);
        let mut width = 1;
        for arity in arities {
            add_children(&mut children, width, *arity)?;
            width *= *arity as usize;
        }
        Ok(Shape {
            arities: arities.to_vec(alloc)?,
            children,
        })
    }

    /// Returns the number of levels above the leaves.
    #[inline(always)]
    pub fn height(&self) -> usize
        ensures height { result ≡ length self.now }
    {
        self.arities.len()
    }

    /// Returns the index of the child at a digit of an inner node.
    #[inline(always)]
    pub fn child(&self, node: usize, digit: u32) -> usize
        requires inner { node < inner_nodes self.now 0 1 }
        ensures child { result ≡ first_child self.now 0 1 node + digit }
    {
        self.children[node] as usize + digit as usize
    }
}

/// Adds the first children of a level of `width` nodes with `arity` children each. The nodes before
/// the level have theirs.
fn add_children(children: &mut Vec<u32>, width: usize, arity: u32) -> Result<(), AllocError>
    requires small { length children.old.items + width + width * arity < 2 ^ 32 }
    ensures long { OnOk result (length children.new.items ≡ length children.old.items + width) }
    ensures kept { (j : ℕ) → j < length children.old.items →
        OnOk result (slice_index_or children.new.items j 0 ≡ slice_index_or children.old.items j 0) }
    ensures added { (place : ℕ) → place < width →
        OnOk result (slice_index_or children.new.items (length children.old.items + place) 0 ≡
        length children.old.items + width + place * arity) }
{
    let mut child = (children.len() + width) as u32;
    for _ in 0..width {
        children.push(child)?;
        child += arity;
    }
    Ok(())
}
