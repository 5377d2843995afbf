//! How large the queues of a target got, as JSON.
ghost use Rattle.std.specs.Prelude.{◌≡◌, ◌++◌, IfOk, OnOk};
ghost use Rattle.size_core.specs.Json.{more_digits_json, address_json, serves_json, counts_json, field_json, queue_json, use_json, stores_json, node_json, more_json, nodes_json, memory_json, limit_json, event_json, push_json, passed_json, sizes_json};

use crate::limits::{Limit, Overflow};
use crate::memory::{Widths, memory_of};
use crate::numbers::{bits_for, put_number, put_wide, put_words};
use crate::size::{NodeSize, Sizes, StoreUse};
use std::alloc::{AllocError, Global};

/// Appends digits, each after a comma.
fn put_more_digits(into: &mut Vec<u8>, digits: &[u32]) -> Result<(), AllocError>
    ensures { OnOk result (into.new.items ≡ into.old.items ++ more_digits_json digits.now) }
{
    for digit in digits {
        put_wide(into, b",", u128::from(*digit))?;
    }
    Ok(())
}

/// Appends the digits of an address, to the end of the array.
fn put_address(into: &mut Vec<u8>, address: &[u32]) -> Result<(), AllocError>
    ensures { OnOk result (into.new.items ≡ into.old.items ++ address_json address.now) }
{
    match address {
        [] => put_words(into, b"[]"),
        [first, rest @ ..] => {
            put_wide(into, b"[", u128::from(*first))?;
            put_more_digits(into, rest)?;
            put_words(into, b"]")
        }
    }
}

/// Appends the name of the policy's node that the node serves, or null.
fn put_serves(into: &mut Vec<u8>, node: &NodeSize) -> Result<(), AllocError>
    ensures { OnOk result (into.new.items ≡ into.old.items ++ serves_json node.now.name) }
{
    match &node.name {
        Some(name) => {
            put_words(into, b",\"serves\":\"")?;
            put_words(into, name.as_str().as_bytes())?;
            put_words(into, b"\"")
        }
        None => put_words(into, b",\"serves\":null"),
    }
}

#[tactic(auto, unfolding(crate::specs::Json::counts_json))]
fn put_counts(into: &mut Vec<u8>, pushes: u64, most: u64) -> Result<(), AllocError>
    ensures { OnOk result (into.new.items ≡ into.old.items ++ counts_json pushes most) }
{
    put_number(into, b",\"pushes\":", pushes)?;
    put_number(into, b",\"entries\":", most)
}

/// Appends a number and the bits that it needs, each after its key.
#[tactic(auto, unfolding(crate::specs::Json::field_json))]
fn put_field(into: &mut Vec<u8>, key: &[u8], bits_key: &[u8], number: u64) -> Result<(), AllocError>
    ensures { OnOk result (into.new.items ≡ into.old.items ++ field_json key.now bits_key.now
        number) }
{
    put_number(into, key, number)?;
    put_number(into, bits_key, u64::from(bits_for(number)))
}

/// Appends the figures of a node's queue.
#[tactic(auto, unfolding(crate::specs::Json::queue_json))]
fn put_queue(into: &mut Vec<u8>, node: &NodeSize) -> Result<(), AllocError>
    ensures { OnOk result (into.new.items ≡ into.old.items ++ queue_json node.now) }
{
    put_counts(into, node.pushes, node.most)?;
    put_field(into, b",\"rank\":", b",\"rank_bits\":", node.top)?;
    put_field(
        into,
        b",\"difference\":",
        b",\"difference_bits\":",
        node.span,
    )
}

/// Appends the use of a node's rank stores as an object.
#[tactic(auto, unfolding(crate::specs::Json::use_json))]
fn put_use(into: &mut Vec<u8>, stores: StoreUse) -> Result<(), AllocError>
    ensures { OnOk result (into.new.items ≡ into.old.items ++ use_json stores) }
{
    put_number(into, b"{\"heads\":", stores.heads)?;
    put_number(into, b",\"entries\":", stores.stored)?;
    put_number(into, b",\"spilled\":", stores.spilled)?;
    put_number(into, b",\"spills\":", stores.spills)?;
    put_words(into, b"}")
}

/// Appends the use of the rank stores, or null.
fn put_stores(into: &mut Vec<u8>, stores: Option<StoreUse>) -> Result<(), AllocError>
    ensures { OnOk result (into.new.items ≡ into.old.items ++ stores_json stores) }
{
    match stores {
        Some(stores) => put_use(into, stores),
        None => put_words(into, b"null"),
    }
}

#[tactic(auto, unfolding(crate::specs::Json::node_json))]
fn put_node(into: &mut Vec<u8>, node: &NodeSize) -> Result<(), AllocError>
    ensures { OnOk result (into.new.items ≡ into.old.items ++ node_json node.now) }
{
    put_words(into, b"{\"address\":")?;
    put_address(into, &node.address)?;
    put_serves(into, node)?;
    put_queue(into, node)?;
    put_words(into, b",\"stores\":")?;
    put_stores(into, node.stores)?;
    put_words(into, b"}")
}

/// Appends nodes, each after a comma.
fn put_more(into: &mut Vec<u8>, nodes: &[NodeSize]) -> Result<(), AllocError>
    ensures { OnOk result (into.new.items ≡ into.old.items ++ more_json nodes.now) }
{
    for node in nodes {
        put_words(into, b",")?;
        put_node(into, node)?;
    }
    Ok(())
}

fn put_nodes(into: &mut Vec<u8>, nodes: &[NodeSize]) -> Result<(), AllocError>
    ensures { OnOk result (into.new.items ≡ into.old.items ++ nodes_json nodes.now) }
{
    match nodes {
        [] => Ok(()),
        [first, rest @ ..] => {
            put_node(into, first)?;
            put_more(into, rest)
        }
    }
}

/// Appends the bits of the memory, or null if no widths are given.
fn put_memory(
    into: &mut Vec<u8>,
    nodes: &[NodeSize],
    widths: Option<Widths>,
) -> Result<(), AllocError>
    ensures { OnOk result (into.new.items ≡ into.old.items ++ memory_json nodes.now widths) }
{
    let Some(widths) = widths else {
        return put_words(into, b",\"memory\":null");
    };
    put_wide(into, b",\"memory\":", memory_of(widths, nodes))
}

fn put_limit(into: &mut Vec<u8>, limit: Limit) -> Result<(), AllocError>
    ensures { OnOk result (into.new.items ≡ into.old.items ++ limit_json limit) }
{
    match limit {
        Limit::Entries => put_words(into, b"\"entries\""),
        Limit::Bits => put_words(into, b"\"rank_bits\""),
    }
}

#[tactic(auto, unfolding(crate::specs::Json::event_json))]
fn put_event(into: &mut Vec<u8>, event: u64, packet: u64) -> Result<(), AllocError>
    ensures { OnOk result (into.new.items ≡ into.old.items ++ event_json event packet) }
{
    put_number(into, b"{\"event\":", event)?;
    put_number(into, b",\"packet\":", packet)?;
    put_words(into, b",\"address\":")
}

#[tactic(auto, unfolding(crate::specs::Json::push_json))]
fn put_push(into: &mut Vec<u8>, passed: &Overflow) -> Result<(), AllocError>
    ensures { OnOk result (into.new.items ≡ into.old.items ++ push_json passed.now) }
{
    put_event(into, passed.event, passed.packet)?;
    put_address(into, &passed.address)?;
    put_words(into, b",\"limit\":")?;
    put_limit(into, passed.limit)?;
    put_words(into, b"}")
}

/// Appends the first push that passed a limit, or null.
fn put_passed(into: &mut Vec<u8>, sizes: &Sizes) -> Result<(), AllocError>
    ensures { OnOk result (into.new.items ≡ into.old.items ++ passed_json sizes.now.overflow) }
{
    match &sizes.overflow {
        Some(passed) => put_push(into, passed),
        None => put_words(into, b"null"),
    }
}

/// Returns the sizes as one JSON object and a newline. The error is out of memory.
pub fn put_json(alloc: Global, sizes: &Sizes, widths: Option<Widths>) -> Result<Vec<u8>, AllocError>
    ensures { IfOk result (λ text. text.items ≡ sizes_json sizes.now widths) }
{
    let mut text = Vec::new(alloc);
    put_words(&mut text, b"{\"nodes\":[")?;
    put_nodes(&mut text, &sizes.nodes)?;
    put_wide(&mut text, b"],\"entries\":", sizes.entries)?;
    put_memory(&mut text, &sizes.nodes, widths)?;
    put_words(&mut text, b",\"passed\":")?;
    put_passed(&mut text, sizes)?;
    put_words(&mut text, b"}\n")?;
    Ok(text)
}
