//! The results of a sizing.
ghost use Rattle.std.specs.Prelude.{◌≡◌, ◌++◌, [], length, map, nat_lt, option_map, unwrap_or, IfOk, OnOk};
ghost use Rattle.size_core.specs.Paths.{address_in};
ghost use Rattle.size_core.specs.Sizes.{crossing_of, line_of};
ghost use Rattle.size_core.specs.Hops.{Uses};
ghost use Rattle.size_core.specs.Watching.{HaveUses};
ghost use Rattle.size_core.specs.Results.{crossing_in, line_if, line_with, lines_of, name_in};

use crate::limits::{Overflow, Passed};
use crate::node::{Figures, Node};
use crate::places::Known;
use crate::size::NodeSize;
use list_core::Name;
use std::alloc::{AllocError, Global};

/// Returns a copy of the address of a node.
fn address_of(alloc: Global, known: &Known, node: usize) -> Result<Vec<u32>, AllocError>
    ensures { IfOk result (λ v. v.items ≡ unwrap_or (address_in known.now.keys node) []) }
{
    match known.get_index(node) {
        Some(address) => address.as_slice().to_vec(alloc),
        None => Ok(Vec::new(alloc)),
    }
}

/// Returns a copy of the name that a node serves.
fn name_of(alloc: Global, names: &[Option<Name>], node: usize) -> Result<Option<Name>, AllocError>
    ensures { IfOk result (λ o. o ≡ name_in names.now node) }
{
    match names.get(node) {
        Some(Some(name)) => {
            let name = Name::new(alloc, name.as_str())?;
            Ok(Some(name))
        }
        _ => Ok(None),
    }
}

/// Returns the size of a node with these figures. The error is out of memory.
fn size_of(
    alloc: Global,
    known: &Known,
    names: &[Option<Name>],
    node: usize,
    figures: Figures,
) -> Result<NodeSize, AllocError>
    ensures { IfOk result (λ n. line_of n ≡ line_with known.now.keys names.now node figures) }
{
    let address = address_of(alloc, known, node)?;
    let name = name_of(alloc, names, node)?;
    Ok(NodeSize {
        address,
        name,
        pushes: figures.pushes,
        most: figures.most,
        top: figures.top,
        span: figures.span,
        stores: figures.stores,
    })
}

/// Appends the size of a node with these figures, if it has a push. The error is out of memory.
fn push_size(
    alloc: Global,
    known: &Known,
    names: &[Option<Name>],
    node: usize,
    figures: Figures,
    sizes: &mut Vec<NodeSize>,
) -> Result<(), AllocError>
    ensures { OnOk result (map line_of sizes.new.items ≡ map line_of sizes.old.items ++
        line_if (nat_lt 0 figures.pushes) (line_with known.now.keys names.now node figures)) }
{
    if figures.pushes > 0 {
        let size = size_of(alloc, known, names, node, figures)?;
        sizes.push(size)?;
    }
    Ok(())
}

/// Returns the sizes of the nodes that have a push. Pops an entry of each. The error is out of
/// memory.
pub(crate) fn sizes_of(
    alloc: Global,
    known: &Known,
    names: &[Option<Name>],
    nodes: &mut [Node],
) -> Result<Vec<NodeSize>, AllocError>
    ensures { IfOk result (λ v. (uses : Uses) → HaveUses nodes.old uses →
        map line_of v.items ≡ lines_of known.now.keys names.now uses (length nodes.old)) }
{
    let mut sizes = Vec::new(alloc);
    for node in 0..nodes.len() {
        let figures = nodes[node].figures();
        push_size(alloc, known, names, node, figures, &mut sizes)?;
    }
    Ok(sizes)
}

/// Returns an overflow with its node's address. The error is out of memory.
pub(crate) fn overflow_of(
    alloc: Global,
    known: &Known,
    passed: Option<Passed>,
) -> Result<Option<Overflow>, AllocError>
    ensures { IfOk result (λ o. option_map crossing_of o ≡
        option_map (crossing_in known.now.keys) passed) }
{
    let Some(passed) = passed else {
        return Ok(None);
    };
    let address = address_of(alloc, known, passed.node)?;
    Ok(Some(Overflow {
        event: passed.event,
        packet: passed.packet,
        address,
        limit: passed.limit,
    }))
}
