//! How large the queues of a target got, as text.
ghost use Rattle.std.specs.Prelude.{◌≡◌, ◌++◌, IfOk, OnOk};
ghost use Rattle.size_core.specs.Text.{digits_text, address_text, serves_text, counts_text, field_text, queue_text, use_text, stores_text, node_text, nodes_text, widths_text, memory_text, limit_text, push_text, passed_text, sizes_text};

use crate::limits::{Limit, Overflow};
use crate::memory::{Widths, memory_of};
use crate::numbers::{bits_for, put_number, put_wide, put_words};
use crate::size::{NodeSize, Sizes, StoreUse};
use std::alloc::{AllocError, Global};

/// Appends each digit after a slash.
fn put_digits(into: &mut Vec<u8>, address: &[u32]) -> Result<(), AllocError>
    ensures { OnOk result (into.new.items ≡ into.old.items ++ digits_text address.now) }
{
    for digit in address {
        put_wide(into, b"/", u128::from(*digit))?;
    }
    Ok(())
}

fn put_address(into: &mut Vec<u8>, address: &[u32]) -> Result<(), AllocError>
    ensures { OnOk result (into.new.items ≡ into.old.items ++ address_text address.now) }
{
    if address.is_empty() {
        return put_words(into, b"/");
    }
    put_digits(into, address)
}

/// Appends the name of the policy's node that the node serves.
fn put_serves(into: &mut Vec<u8>, node: &NodeSize) -> Result<(), AllocError>
    ensures { OnOk result (into.new.items ≡ into.old.items ++ serves_text node.now.name) }
{
    match &node.name {
        Some(name) => {
            put_words(into, b" ")?;
            put_words(into, name.as_str().as_bytes())
        }
        None => put_words(into, b" transit"),
    }
}

#[tactic(auto, unfolding(crate::specs::Text::counts_text))]
fn put_counts(into: &mut Vec<u8>, most: u64, pushes: u64) -> Result<(), AllocError>
    ensures { OnOk result (into.new.items ≡ into.old.items ++ counts_text most pushes) }
{
    put_number(into, b": at most ", most)?;
    put_number(into, b" entries of ", pushes)?;
    put_words(into, b" pushed")
}

/// Appends a number and the bits that it needs, after the words before it.
#[tactic(auto, unfolding(crate::specs::Text::field_text))]
fn put_field(into: &mut Vec<u8>, words: &[u8], number: u64) -> Result<(), AllocError>
    ensures { OnOk result (into.new.items ≡ into.old.items ++ field_text words.now number) }
{
    put_number(into, words, number)?;
    put_number(into, b", ", u64::from(bits_for(number)))?;
    put_words(into, b" bits")
}

/// Appends the figures of a node's queue, to the end of its line.
#[tactic(auto, unfolding(crate::specs::Text::queue_text))]
fn put_queue(into: &mut Vec<u8>, node: &NodeSize) -> Result<(), AllocError>
    ensures { OnOk result (into.new.items ≡ into.old.items ++ queue_text node.now) }
{
    put_counts(into, node.most, node.pushes)?;
    put_field(into, b"; greatest rank ", node.top)?;
    put_field(into, b"; greatest difference ", node.span)?;
    put_words(into, b"\n")
}

/// Appends the line of a node's rank stores.
#[tactic(auto, unfolding(crate::specs::Text::use_text))]
fn put_use(into: &mut Vec<u8>, stores: StoreUse) -> Result<(), AllocError>
    ensures { OnOk result (into.new.items ≡ into.old.items ++ use_text stores) }
{
    put_number(into, b"  stores: at most ", stores.heads)?;
    put_number(into, b" heads, ", stores.stored)?;
    put_number(into, b" entries in a store, ", stores.spilled)?;
    put_number(into, b" spilled; ", stores.spills)?;
    put_words(into, b" spills\n")
}

/// Appends the line of the rank stores, if there are any.
fn put_stores(into: &mut Vec<u8>, stores: Option<StoreUse>) -> Result<(), AllocError>
    ensures { OnOk result (into.new.items ≡ into.old.items ++ stores_text stores) }
{
    match stores {
        Some(stores) => put_use(into, stores),
        None => Ok(()),
    }
}

#[tactic(auto, unfolding(crate::specs::Text::node_text))]
fn put_node(into: &mut Vec<u8>, node: &NodeSize) -> Result<(), AllocError>
    ensures { OnOk result (into.new.items ≡ into.old.items ++ node_text node.now) }
{
    put_words(into, b"node ")?;
    put_address(into, &node.address)?;
    put_serves(into, node)?;
    put_queue(into, node)?;
    put_stores(into, node.stores)
}

fn put_nodes(into: &mut Vec<u8>, nodes: &[NodeSize]) -> Result<(), AllocError>
    ensures { OnOk result (into.new.items ≡ into.old.items ++ nodes_text nodes.now) }
{
    for node in nodes {
        put_node(into, node)?;
    }
    Ok(())
}

/// Appends the widths, to the end of the line.
#[tactic(auto, unfolding(crate::specs::Text::widths_text))]
fn put_widths(into: &mut Vec<u8>, rank: u32, entry: u32) -> Result<(), AllocError>
    ensures { OnOk result (into.new.items ≡ into.old.items ++ widths_text rank entry) }
{
    put_wide(into, b" bits, for ", u128::from(rank))?;
    put_wide(into, b" bits of rank and ", u128::from(entry))?;
    put_words(into, b" of entry\n")
}

/// Appends the line of the memory, if widths are given.
fn put_memory(
    into: &mut Vec<u8>,
    nodes: &[NodeSize],
    widths: Option<Widths>,
) -> Result<(), AllocError>
    ensures { OnOk result (into.new.items ≡ into.old.items ++ memory_text nodes.now widths) }
{
    let Some(widths) = widths else {
        return Ok(());
    };
    put_wide(into, b"memory: ", memory_of(widths, nodes))?;
    put_widths(into, widths.rank, widths.entry)
}

fn put_limit(into: &mut Vec<u8>, limit: Limit) -> Result<(), AllocError>
    ensures { OnOk result (into.new.items ≡ into.old.items ++ limit_text limit) }
{
    match limit {
        Limit::Entries => put_words(into, b"entries\n"),
        Limit::Bits => put_words(into, b"rank bits\n"),
    }
}

#[tactic(auto, unfolding(crate::specs::Text::push_text))]
fn put_push(into: &mut Vec<u8>, passed: &Overflow) -> Result<(), AllocError>
    ensures { OnOk result (into.new.items ≡ into.old.items ++ push_text passed.now) }
{
    put_number(into, b"limit passed: event ", passed.event)?;
    put_number(into, b", packet ", passed.packet)?;
    put_words(into, b", node ")?;
    put_address(into, &passed.address)?;
    put_words(into, b", by its ")?;
    put_limit(into, passed.limit)
}

/// Appends the line of the first push that passed a limit, if there was one.
fn put_passed(into: &mut Vec<u8>, sizes: &Sizes) -> Result<(), AllocError>
    ensures { OnOk result (into.new.items ≡ into.old.items ++ passed_text sizes.now.overflow) }
{
    match &sizes.overflow {
        Some(passed) => put_push(into, passed),
        None => Ok(()),
    }
}

/// Returns the sizes as text: each node, all nodes, the memory if widths are given, and the first
/// push that passed a limit. The error is out of memory.
pub fn put_text(alloc: Global, sizes: &Sizes, widths: Option<Widths>) -> Result<Vec<u8>, AllocError>
    ensures { IfOk result (λ text. text.items ≡ sizes_text sizes.now widths) }
{
    let mut text = Vec::new(alloc);
    put_nodes(&mut text, &sizes.nodes)?;
    put_wide(&mut text, b"all nodes: at most ", sizes.entries)?;
    put_words(&mut text, b" entries\n")?;
    put_memory(&mut text, &sizes.nodes, widths)?;
    put_passed(&mut text, sizes)?;
    Ok(text)
}
