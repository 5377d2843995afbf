//! The tree below the root of a graph, with its nodes numbered in preorder.
ghost use Rattle.std.specs.Prelude.{◌≡◌, ℕ, ◌<◌, ◌≤◌, ◌++◌, ◌∷◌, [], ◌^◌, ◌↔◌, length, slice_index, IfOk, IsTrue};
ghost use Rattle.tree_defs.specs.Tree.{depth as levels, LeadsToLeaf, most_levels};
ghost use Rattle.tree_defs.specs.Topology.{IsBranched};
ghost use Rattle.tree_core.specs.Shape.{topology};
ghost use Rattle.tree_graph.specs.Descent.{lists, IsForest, IsDeep, times};
ghost use Rattle.tree_graph.specs.Row.{row_at, nodes_of};
ghost use Rattle.tree_graph.specs.Preorder.{IsTreeBelow};

use crate::growth::grow;
use crate::place::Place;
use std::alloc::{AllocError, Global};
use std::marker::Model;
use tree_core::{Topo, depth};

/// The nodes of a tree, numbered in preorder. The root has number 0.
#[derive(Drop)]
pub struct Preorder {
    places: Vec<Place>,
    topo: Topo,
}

impl Model for Preorder {
    ghost use Rattle.tree_core.specs.Shape.{topology};
    ghost use Rattle.tree_graph.specs.Preorder.{Numbered, IsSound, numbered};
    ghost use Rattle.tree_graph.specs.Codes.{numbered_code};

    ghost Value = { Numbered };

    ghost coded = { numbered_code };

    ghost view = { λ p. numbered p.places.items (topology p.topo) };

    ghost invariant = { λ p. IsSound p.places.items (topology p.topo) };
}

impl Preorder {
    /// Builds the tree of a graph below its root. Children are in the order of the lists. The error
    /// means out of memory.
    pub fn new(alloc: Global, graph: &[Vec<u32>], root: u32) -> Result<Preorder, AllocError>
        requires forest { IsForest (lists graph.now) root }
        requires shallow { (a : ℕ) → a < length graph.now → ¬ IsDeep (lists graph.now) root a }
        requires small { length graph.now < 2 ^ 32 }
        ensures tree { IfOk result (λ p. IsTreeBelow (lists graph.now) root p) }
        ensures count { IfOk result (λ p. length p.rows ≡ length graph.now) }
        ensures once { IfOk result (λ p. (a : ℕ) → a < length graph.now →
            times a (nodes_of p.rows) ≡ 1) }
    {
        let mut address = Vec::new(alloc);
        let mut places = Vec::new(alloc);
        let topo = grow(alloc, graph, root, &mut address, &mut places)?;
        Ok(Preorder { places, topo })
    }

    /// Returns the shape of the tree.
    pub fn topo(&self) -> &Topo
        ensures topology { topology result.now ≡ self.now.topology }
        ensures branched { IsBranched self.now.topology }
        ensures levels { levels self.now.topology ≤ most_levels }
    {
        &self.topo
    }

    /// Returns the number of levels below the root, at most 64.
    pub fn depth(&self) -> u32
        ensures levels { result ≡ levels self.now.topology }
        ensures limit { result ≤ most_levels }
    {
        depth(&self.topo)
    }

    /// Returns the number of nodes.
    pub fn count(&self) -> u32
        ensures count { result ≡ length self.now.rows }
    {
        self.places.len() as u32
    }

    /// Returns a node's number in the graph, given its preorder number.
    pub fn node(&self, number: u32) -> u32
        requires there { number < length self.now.rows }
        ensures node { result ≡ (row_at self.now.rows number).node }
    {
        self.places[number as usize].node()
    }

    /// Returns the digits on the path from the root to a node.
    pub fn address(&self, number: u32) -> &[u32]
        requires there { number < length self.now.rows }
        ensures address { result.now ≡ (row_at self.now.rows number).address }
    {
        self.places[number as usize].address()
    }

    /// Returns whether a node has no children.
    pub fn is_leaf(&self, number: u32) -> bool
        requires there { number < length self.now.rows }
        ensures childless { IsTrue result ↔ ((row_at self.now.rows number).children ≡ []) }
        ensures leaf_address { IsTrue result ↔ LeadsToLeaf self.now.topology
            (row_at self.now.rows number).address }
    {
        self.places[number as usize].children().is_empty()
    }

    /// Returns the preorder number of the child at a digit.
    pub fn child(&self, number: u32, digit: u32) -> u32
        requires there { number < length self.now.rows }
        requires child { digit < length (row_at self.now.rows number).children }
        ensures child { result ≡ slice_index (row_at self.now.rows number).children digit }
        ensures later { number < result }
        ensures within { result < length self.now.rows }
        ensures address { (row_at self.now.rows result).address ≡
            (row_at self.now.rows number).address ++ digit ∷ [] }
    {
        self.places[number as usize].children()[digit as usize]
    }
}
