//! Builds a tree node by node, in preorder.
ghost use Rattle.std.specs.Prelude.{◌≡◌, ◌<◌, ◌^◌, map, length, IfOk, OnOk};
ghost use Rattle.tree_defs.specs.Tree.{trees_of, most_levels};
ghost use Rattle.tree_core.specs.Shape.{topology};
ghost use Rattle.tree_core.specs.TreeContents.{branch};
ghost use Rattle.tree_graph.specs.Descent.{lists, AreInRange, IsWithin};
ghost use Rattle.tree_graph.specs.Growth.{HasRoom, HasGrown};

use crate::place::Place;
use std::alloc::{AllocError, Global};
use tree_core::Topo;

/// Appends a node and all its descendants to `places`, in preorder, and returns their shape. The
/// error means out of memory.
pub fn grow(
    alloc: Global,
    graph: &[Vec<u32>],
    node: u32,
    address: &mut Vec<u32>,
    places: &mut Vec<Place>,
) -> Result<Topo, AllocError>
    requires within { node < length graph.now }
    requires in_range { AreInRange (lists graph.now) }
    requires small { length graph.now < 2 ^ 32 }
    requires shallow { IsWithin (lists graph.now) node most_levels (length address.old.items) }
    requires room { HasRoom (lists graph.now) node (length places.old.items) (length graph.now) }
    ensures grown { IfOk result (λ t. HasGrown (lists graph.now) node address.old.items
        places.old.items places.new.items (topology t)) }
    ensures address { OnOk result (address.new.items ≡ address.old.items) }
{
    let number = places.len();
    let own = Vec::from_slice(alloc, address.as_slice())?;
    places.push(Place::new(alloc, node, own))?;
    let mut children = Vec::new(alloc);
    let mut topos = Vec::new(alloc);
    for (digit, child) in graph[node as usize].iter().enumerate() {
        children.push(places.len() as u32)?;
        address.push(digit as u32)?;
        topos.push(grow(alloc, graph, *child, address, places)?)?;
        let _ = address.pop();
    }
    let place = &mut places[number];
    place.set_children(children);
    Ok(shape(topos))
}

fn shape(children: Vec<Topo>) -> Topo
    ensures topology { topology result ≡ branch tt (trees_of (map topology children.items)) }
{
    if children.is_empty() {
        Topo::leaf()
    } else {
        Topo::inner(children)
    }
}
