//! Says whether an address leads to a node of a topology, or to a leaf.
ghost use Rattle.std.specs.Prelude.{◌≡◌, Option, option_map};
ghost use Rattle.tree_defs.specs.Tree.{subtree};
ghost use Rattle.tree_core.specs.Shape.{topology};
ghost use Rattle.mapcheck_core.specs.Numbers.{is_address, is_leaf_at};

use tree_core::Topo;

/// Returns the subtree at an address, if there is a node.
fn part<'a>(topo: &'a Topo, address: &[u32]) -> Option<&'a Topo>
    ensures { option_map (λ part. topology part.now) result ≡
        subtree (topology topo.now) address.now }
{
    match address {
        [] => Some(topo),
        [digit, deeper @ ..] => match topo {
            Topo::Leaf => None,
            Topo::Inner(children) => match children.get(*digit as usize) {
                Some(child) => part(child, deeper),
                None => None,
            },
        },
    }
}

/// Says whether an address leads to a node.
pub(crate) fn is_address(topo: &Topo, address: &[u32]) -> bool
    ensures { result ≡ is_address (topology topo.now) address.now }
{
    part(topo, address).is_some()
}

/// Says whether an address leads to a leaf.
pub(crate) fn is_leaf_at(topo: &Topo, address: &[u32]) -> bool
    ensures { result ≡ is_leaf_at (topology topo.now) address.now }
{
    matches!(part(topo, address), Some(Topo::Leaf))
}
