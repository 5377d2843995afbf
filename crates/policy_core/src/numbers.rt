//! The numbers of nodes in preorder.
ghost use Rattle.std.specs.Prelude.{◌≡◌, ℕ, ◌<◌, length, IfOk};
ghost use Rattle.tree_graph.specs.Descent.{times};
ghost use Rattle.tree_graph.specs.Row.{nodes_of};
ghost use Rattle.policy_core.specs.Numbers.{ArePlaces};

use std::alloc::{AllocError, Global};
use tree_graph::Preorder;

/// Returns the preorder number of each node of the graph. The error means out of memory.
pub fn places(alloc: Global, tree: &Preorder) -> Result<Vec<u32>, AllocError>
    requires once { (a : ℕ) → a < length tree.now.rows → times a (nodes_of tree.now.rows) ≡ 1 }
    ensures places { IfOk result (λ p. ArePlaces tree.now.rows p.items) }
{
    let mut places = vec![in alloc; 0; tree.count() as usize]?;
    for number in 0..tree.count() {
        places[tree.node(number) as usize] = number;
    }
    Ok(places)
}
