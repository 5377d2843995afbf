//! The shape of a tree.
ghost use Rattle.std.specs.Prelude.{◌≡◌, ◌≤◌, map};
ghost use Rattle.tree_defs.specs.Tree.{leaf, inner, trees_of, depth as levels, most_levels};
ghost use Rattle.tree_core.specs.Shape.{topology};

/// A leaf, or an inner node with its children in order.
#[derive(Drop)]
pub enum Topo {
    Leaf,
    Inner(Vec<Topo>),
}

impl Topo {
    pub fn leaf() -> Topo
        ensures topology { topology result ≡ leaf tt }
    {
        Topo::Leaf
    }

    /// Returns an inner node with these children, in order.
    pub fn inner(children: Vec<Topo>) -> Topo
        ensures topology { topology result ≡ inner tt (trees_of (map topology children.items)) }
    {
        Topo::Inner(children)
    }
}

/// Returns the number of levels below the root. The limit is 64, since each level is a nested call.
pub fn depth(topo: &Topo) -> u32
    requires levels { levels (topology topo.now) ≤ most_levels }
    ensures levels { result ≡ levels (topology topo.now) }
{
    match topo {
        Topo::Leaf => 0,
        Topo::Inner(children) => {
            let mut most = 0;
            for child in children {
                most = most.max(depth(child) + 1);
            }
            most
        }
    }
}
