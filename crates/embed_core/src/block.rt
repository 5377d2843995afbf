//! Blocks of leaves, and the digits of their first leaves.
ghost use Rattle.std.specs.Prelude.{◌≡◌, ◌+◌, ◌<◌, length, IfOk};
ghost use Rattle.tree_defs.specs.Tree.{trees_of};
ghost use Rattle.tree_defs.specs.Topology.{IsWithin};
ghost use Rattle.embed_defs.specs.Levels.{down_from};
ghost use Rattle.embed_defs.specs.Need.{FitsBelow, needs_at};
ghost use Rattle.embed_defs.specs.Canonical.{IsAmong, digits, children, comes_before};
ghost use Rattle.embed_defs.specs.Counting.{value};
ghost use Rattle.embed_defs.specs.Target.{IsInRange};
ghost use Rattle.embed_core.specs.Range.{levels_of};
ghost use Rattle.embed_core.specs.Blocks.{start_digits, PassesBlock};

use crate::needs::Needs;
use std::alloc::{AllocError, Global};
use target_core::Target;

/// A child's index, and its need.
pub type Child = (usize, u32);

/// Says whether a child is placed before another: by falling need, then in source order.
fn comes_before(child: Child, other: Child) -> bool
    ensures before { result ≡ comes_before child other }
{
    child.1 > other.1 || child.1 == other.1 && child.0 < other.0
}

/// Returns the digits of the first leaf of a child's block, below a node of this height.
pub fn block_start(
    alloc: Global,
    siblings: &[Needs],
    child: Child,
    height: usize,
    target: &Target,
) -> Result<Vec<u32>, AllocError>
    requires child { IsAmong child (children (trees_of siblings.now) 0) }
    requires fits { FitsBelow (levels_of target.now) (needs_at (trees_of siblings.now)) height }
    requires range { IsInRange target.now.arities target.now.above }
    ensures start { IfOk result (λ v. v.items ≡ start_digits (levels_of target.now) height
        (trees_of siblings.now) child) }
{
    let mut start = vec![in alloc; 0; height]?;
    for (index, sibling) in siblings.iter().enumerate() {
        let other = (index, sibling.need());
        if comes_before(other, child) {
            skip_block(&mut start, other.1 as usize, target);
        }
    }
    Ok(start)
}

/// Advances the digits of a leaf by one block.
fn skip_block(digits: &mut [u32], need: usize, target: &Target)
    requires digits { IsWithin (down_from (levels_of target.now) (length digits.old)) digits.old }
    requires lower { need < length digits.old }
    requires range { IsInRange target.now.arities target.now.above }
    ensures digits { IsWithin (down_from (levels_of target.now) (length digits.new)) digits.new }
    ensures value { PassesBlock (levels_of target.now) need digits.old digits.new }
{
    let height = digits.len();
    for level in need..height {
        let place = height - 1 - level;
        if digits[place] + 1 < target.arity(level) {
            digits[place] += 1;
            return;
        }
        digits[place] = 0;
    }
}
