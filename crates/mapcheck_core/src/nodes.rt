//! The nodes of a topology by number.
ghost use Rattle.std.specs.Prelude.{◌≡◌, ◌<◌, ◌≤◌};
ghost use Rattle.tree_defs.specs.Tree.{nodes, most_nodes};
ghost use Rattle.tree_core.specs.Shape.{topology};
ghost use Rattle.mapcheck_core.specs.Numbers.{span_at};

use tree_core::Topo;

/// Returns the number of nodes of a topology.
pub(crate) fn nodes(topo: &Topo) -> usize
    requires few { nodes (topology topo.now) ≤ most_nodes }
    ensures nodes { result ≡ nodes (topology topo.now) }
{
    match topo {
        Topo::Leaf => 1,
        Topo::Inner(children) => {
            let mut count = 1;
            for child in children {
                count += nodes(child);
            }
            count
        }
    }
}

/// Returns the number of nodes of the subtree whose root has this number.
pub(crate) fn span(topo: &Topo, number: usize) -> usize
    requires few { nodes (topology topo.now) ≤ most_nodes }
    requires inside { number < nodes (topology topo.now) }
    ensures span { result ≡ span_at (topology topo.now) number }
{
    match topo {
        Topo::Leaf => 1,
        Topo::Inner(children) => {
            if number == 0 {
                return nodes(topo);
            }
            let mut left = number - 1;
            for child in children {
                let size = nodes(child);
                if left < size {
                    return span(child, left);
                }
                left -= size;
            }
            unreachable!()
        }
    }
}
