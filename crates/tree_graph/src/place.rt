//! A stored node of a tree.
ghost use Rattle.std.specs.Prelude.{◌≡◌, []};
ghost use Rattle.tree_graph.specs.Row.{Row, row};

use std::alloc::Global;
use std::marker::Model;

/// A node of a tree: its number in the graph, its address, and the preorder numbers of its
/// children.
#[derive(Drop)]
pub struct Place {
    node: u32,
    address: Vec<u32>,
    children: Vec<u32>,
}

impl Model for Place {
    ghost use Rattle.tree_graph.specs.Row.{Row, row};

    ghost Value = { Row };

    ghost view = { λ p. row p.node p.address.items p.children.items };
}

impl Place {
    pub fn new(alloc: Global, node: u32, address: Vec<u32>) -> Place
        ensures row { result ≡ row node address.items [] }
    {
        Place {
            node,
            address,
            children: Vec::new(alloc),
        }
    }

    pub fn set_children(&mut self, children: Vec<u32>)
        ensures row { self.new ≡ row self.old.node self.old.address children.items }
    {
        self.children = children;
    }

    pub fn node(&self) -> u32
        ensures node { result ≡ self.now.node }
    {
        self.node
    }

    pub fn address(&self) -> &[u32]
        ensures address { result.now ≡ self.now.address }
    {
        self.address.as_slice()
    }

    pub fn children(&self) -> &[u32]
        ensures children { result.now ≡ self.now.children }
    {
        self.children.as_slice()
    }
}
