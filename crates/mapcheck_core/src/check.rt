//! Checks whether a given map is an embedding.
ghost use Rattle.std.specs.Prelude.{◌≡◌, ◌==◌, ◌+◌, ◌<◌, ◌≤◌, ◌↔◌, not, IsOk, length, MatchOption};
ghost use Rattle.tree_defs.specs.Tree.{nodes, most_nodes};
ghost use Rattle.embed_defs.specs.Embedding.{IsEmbedding};
ghost use Rattle.tree_core.specs.Shape.{topology};
ghost use Rattle.mapcheck_core.specs.Numbers.{span_at};
ghost use Rattle.mapcheck_core.specs.GivenMaps.{IsWithinLimits, IsGivenFor, image_of, Breaks, IsVerdict};
ghost use Rattle.mapcheck_core.specs.Checks.{breaks, breaks_at, lower_of, IsLeast, is_prefix, is_broken, IsFirstBroken, IsFirstPair};
ghost use Rattle.mapcheck_core.specs.declared.fault.MapFault.{MapFault as Fault};

use crate::fault::MapFault;
use crate::given::Given;
use crate::nodes::span;
use crate::places::{is_address, is_leaf_at};
use tree_core::Topo;

/// A condition on the image of a node.
#[derive(Clone, Copy, Debug)]
pub(crate) enum Demand {
    /// The image is an address.
    Address,
    /// The image is a leaf, if the node is one.
    Leaf,
}

impl Demand {
    /// Says whether an image breaks the condition for the node of this number.
    fn is_broken(self, topo: &Topo, middle: &Topo, number: usize, image: &[u32]) -> bool
        requires few { nodes (topology topo.now) ≤ most_nodes }
        requires inside { number < nodes (topology topo.now) }
        ensures { result ≡ breaks self (topology topo.now) (topology middle.now) number image.now }
    {
        match self {
            Demand::Address => !is_address(middle, image),
            Demand::Leaf => span(topo, number) == 1 && !is_leaf_at(middle, image),
        }
    }
}

/// Returns the lesser of a line number and one that may have been found before.
fn lower(least: Option<u32>, line: u32) -> u32
    ensures { result ≡ lower_of least line }
{
    match least {
        Some(least) => least.min(line),
        None => line,
    }
}

/// Returns the least line number whose image breaks the condition.
fn least_line(topo: &Topo, middle: &Topo, given: &Given, demand: Demand) -> Option<u32>
    requires few { nodes (topology topo.now) ≤ most_nodes }
    requires given { IsGivenFor (topology topo.now) given.now }
    ensures { IsLeast (breaks_at demand (topology topo.now) (topology middle.now) given.now)
        given.now.lines
        (nodes (topology topo.now)) result }
{
    let lines = given.lines.as_slice();
    let mut least = None;
    for (number, image) in given.images.as_slice().iter().enumerate() {
        if demand.is_broken(topo, middle, number, image.as_slice()) {
            least = Some(lower(least, lines[number]));
        }
    }
    least
}

/// Says whether one address is a prefix of another.
fn is_prefix(address: &[u32], other: &[u32]) -> bool
    ensures { result ≡ is_prefix address.now other.now }
{
    other.starts_with(address)
}

/// Returns the least number of a node whose image breaks the prefix condition with the node
/// `first`. The subtree of `first` has `span` nodes.
fn first_broken(given: &Given, first: usize, span: usize) -> Option<usize>
    requires inside { first < length given.now.images }
    requires small { span ≤ most_nodes }
    ensures { IsFirstBroken given.now first span (length given.now.images) result }
{
    let images = given.images.as_slice();
    let image = images[first].as_slice();
    for (number, other) in images.iter().enumerate() {
        let lies_in = first <= number && number - first < span;
        if lies_in != is_prefix(image, other.as_slice()) {
            return Some(number);
        }
    }
    None
}

/// Returns the first two nodes that break the prefix condition.
fn first_pair(topo: &Topo, given: &Given) -> Option<(usize, usize)>
    requires few { nodes (topology topo.now) ≤ most_nodes }
    requires given { IsGivenFor (topology topo.now) given.now }
    ensures { IsFirstPair (topology topo.now) given.now (nodes (topology topo.now)) result }
{
    for first in 0..given.images.len() {
        if let Some(second) = first_broken(given, first, span(topo, first)) {
            return Some((first, second));
        }
    }
    None
}

/// Returns the first clause of an embedding that a map breaks, with its line or nodes.
fn first_fault(topo: &Topo, middle: &Topo, given: &Given) -> Option<MapFault>
    requires topo { IsWithinLimits (topology topo.now) }
    requires given { IsGivenFor (topology topo.now) given.now }
    ensures { IsVerdict (topology topo.now) (topology middle.now) given.now result }
{
    if let Some(line) = least_line(topo, middle, given, Demand::Address) {
        return Some(MapFault::NoAddress(line));
    }
    if !given.images.as_slice()[0].is_empty() {
        return Some(MapFault::Root(given.lines.as_slice()[0]));
    }
    if let Some(line) = least_line(topo, middle, given, Demand::Leaf) {
        return Some(MapFault::Leaf(line));
    }
    match first_pair(topo, given) {
        Some((first, second)) => Some(MapFault::Prefix(first as u32, second as u32)),
        None => None,
    }
}

/// Checks whether a map is an embedding of one topology in another. The error is the first clause
/// that the map breaks, with its line or nodes. Allocates no memory.
pub fn check_map(topo: &Topo, middle: &Topo, given: &Given) -> Result<(), MapFault>
    requires topo { IsWithinLimits (topology topo.now) }
    requires middle { IsWithinLimits (topology middle.now) }
    requires given { IsGivenFor (topology topo.now) given.now }
    ensures embedding { IsOk result ↔ IsEmbedding (topology topo.now) (topology middle.now)
        (image_of (topology topo.now) given.now) }
    ensures fault { (f : Fault) → (result ≡ Err f) ↔ Breaks (topology topo.now)
        (topology middle.now) given.now f }
{
    match first_fault(topo, middle, given) {
        Some(fault) => Err(fault),
        None => Ok(()),
    }
}
