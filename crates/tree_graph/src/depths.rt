//! Depths of nodes, computed from parent links.
ghost use Rattle.std.specs.Prelude.{◌<◌, ◌^◌, length, All};
ghost use Rattle.tree_graph.specs.Descent.{IsForest, AreParents, IsDeep, IsDepthOf, IsFirst};

/// The maximum number of levels below a root.
const MOST_LEVELS: u32 = 64;

/// Returns the number of steps from the root to a node, or `None` if there are more than 64.
/// The graph itself isn't read: `parents` is computed from it.
pub fn depth(parents: &[u32], root: u32, node: u32) -> Option<u32>
    requires within { node < length parents.now }
    requires in_range { All (λ p. p < length parents.now) parents.now }
    ensures depth { (g : _) → IsForest g root → AreParents g parents.now →
        IsDepthOf g root node result }
{
    let mut at = node;
    for depth in 0..MOST_LEVELS + 1 {
        if at == root {
            return Some(depth);
        }
        at = parents[at as usize];
    }
    None
}

/// Returns the first node that is more than 64 levels below the root.
pub fn first_deep(parents: &[u32], root: u32) -> Option<u32>
    requires in_range { All (λ p. p < length parents.now) parents.now }
    requires small { length parents.now < 2 ^ 32 }
    ensures first { (g : _) → IsForest g root → AreParents g parents.now →
        IsFirst (length parents.now) (IsDeep g root) result }
{
    for node in 0..parents.len() as u32 {
        if depth(parents, root, node).is_none() {
            return Some(node);
        }
    }
    None
}
