//! Parents, computed from the lists of children.
ghost use Rattle.std.specs.Prelude.{◌≡◌, ℕ, ◌<◌, ◌^◌, length, All, IfOk};
ghost use Rattle.tree_graph.specs.Descent.{lists, AreInRange, AreParents, ArePointed};

use std::alloc::{AllocError, Global};

/// Returns, for each node that is listed as a child, a node that lists it. The entries of all other
/// nodes are unspecified. The error means out of memory.
pub fn parents(alloc: Global, graph: &[Vec<u32>]) -> Result<Vec<u32>, AllocError>
    requires in_range { AreInRange (lists graph.now) }
    requires small { length graph.now < 2 ^ 32 }
    ensures parents { IfOk result (λ p. AreParents (lists graph.now) p.items) }
    ensures in_range { IfOk result (λ p. All (λ n. n < length p.items) p.items) }
{
    let mut parents = vec![in alloc; 0; graph.len()]?;
    for (node, children) in graph.iter().enumerate() {
        point_to(node as u32, children.as_slice(), parents.as_mut_slice());
    }
    Ok(parents)
}

/// Sets the parent of all nodes in a list.
fn point_to(parent: u32, nodes: &[u32], parents: &mut [u32])
    requires { All (λ i. i < length parents.old) nodes.now }
    ensures { ArePointed parent nodes.now parents.old parents.new }
{
    for node in nodes {
        parents[*node as usize] = parent;
    }
}
