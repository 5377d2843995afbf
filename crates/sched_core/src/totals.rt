//! How much is queued at each node of a packet's path, if a policy's limits need it.
ghost use Rattle.std.specs.Prelude.{◌≡◌, length, OnOk, true, IfOk};
ghost use Rattle.std.specs.List.{list_any};
ghost use Rattle.policy_defs.specs.Policy.{Policy as Plain};
ghost use Rattle.sched_defs.specs.SourceState.{way_to, class_of};
ghost use Rattle.sched_core.specs.NodeTotals.{raised, lowered, nothing};
ghost use Rattle.sched_core.specs.Totals.{AreInside, AreApart, HaveRoom, ForTotals, AreTotals, AreFew, Values, changed, passes_on, AreKept, AreSized, HaveLeafLimits, HasTotalsRoom, with_one_more, with_one_fewer};
ghost use Rattle.tree_defs.specs.Tree.{nodes};
ghost use Rattle.policy_defs.specs.Accepted.{IsAccepted};
ghost use Rattle.sched_defs.specs.Sound.{IsKnown};
ghost use Rattle.sched_core.specs.Agreement.{policy_of};

use crate::node_states::NodeStates;
use crate::node_totals::NodeTotals;
use crate::path_node::PathNode;
use packet_defs::Packet;
use policy_core::Policy;
use std::alloc::{AllocError, Global};

/// Makes room for a packet at each node of its path. The error means out of memory.
fn reserve_along(
    nodes: &mut [NodeTotals],
    path: &[PathNode],
    packet: &Packet,
) -> Result<(), AllocError>
    requires inside { AreInside path.now (length nodes.old) }
    ensures room { OnOk result (HaveRoom path.now nodes.new packet.now 0) }
    ensures totals { (policy : Plain) (values : Values) → AreTotals policy nodes.old values →
        AreTotals policy nodes.new values }
    ensures count { length nodes.new ≡ length nodes.old }
{
    for level in 0..path.len() {
        nodes[path[level].node as usize].reserve(packet)?;
    }
    Ok(())
}

/// Returns whether one more packet would pass a limit of a node on its path.
fn passes_along(nodes: &[NodeTotals], path: &[PathNode], packet: &Packet) -> bool
    requires inside { AreInside path.now (length nodes.now) }
    ensures passes { ForTotals path.now nodes.now (λ policy leaf values.
        result ≡ list_any (passes_on policy values packet.now) (way_to leaf)) }
{
    for level in 0..path.len() {
        if nodes[path[level].node as usize].passes(packet) {
            return true;
        }
    }
    false
}

/// Adds a packet at each node of its path, where there is room for it. Takes no memory.
fn add_along(nodes: &mut [NodeTotals], path: &[PathNode], packet: &Packet)
    requires inside { AreInside path.now (length nodes.old) }
    requires apart { AreApart path.now }
    requires room { HaveRoom path.now nodes.old packet.now 0 }
    ensures totals { ForTotals path.now nodes.old (λ policy leaf values. AreFew values →
        AreTotals policy nodes.new (changed policy leaf (λ group. raised group packet.now) values)) }
    ensures count { length nodes.new ≡ length nodes.old }
{
    for level in 0..path.len() {
        nodes[path[level].node as usize].add(packet);
    }
}

/// Takes a packet out at each node of its path. Takes no memory.
fn take_along(nodes: &mut [NodeTotals], path: &[PathNode], packet: &Packet)
    requires inside { AreInside path.now (length nodes.old) }
    ensures totals { ForTotals path.now nodes.old (λ policy leaf values.
        AreTotals policy nodes.new (changed policy leaf (λ group. lowered group packet.now) values)) }
    ensures count { length nodes.new ≡ length nodes.old }
{
    for level in 0..path.len() {
        nodes[path[level].node as usize].take(packet);
    }
}

/// Returns whether only leaves have limits, and these on packets alone. Then the packets in each
/// leaf are all that limits need.
fn has_leaf_limits(policy: &Policy) -> bool
    ensures limits { result ≡ true →
        HaveLeafLimits policy.now.policy (nodes policy.now.policy.tree) }
{
    for node in 0..policy.count() {
        let limits = policy.limits(node);
        if limits.bytes.is_some() || limits.per_flow.is_some() {
            return false;
        }
        if limits.packets.is_some() && !policy.is_leaf(node) {
            return false;
        }
    }
    true
}

/// Returns the totals of all nodes without packets, by node number. The error means out of memory.
fn first_totals(alloc: Global, policy: &Policy) -> Result<Vec<NodeTotals>, AllocError>
    ensures totals { IfOk result (λ t. AreTotals policy.now.policy t.items (λ _. nothing)) }
{
    let count = policy.count();
    let mut totals = Vec::with_capacity(alloc, count as usize)?;
    for node in 0..count {
        totals.push(NodeTotals::new(alloc, policy.limits(node), policy.group(node)))?;
    }
    Ok(totals)
}

/// Returns the totals of all nodes without packets, if the policy's limits need them. The error
/// means out of memory.
pub fn totals_of(alloc: Global, policy: &Policy) -> Result<Option<Vec<NodeTotals>>, AllocError>
    ensures kept { IfOk result (λ t. AreKept policy.now.policy t (λ _. nothing)) }
{
    if has_leaf_limits(policy) {
        return Ok(None);
    }
    Ok(Some(first_totals(alloc, policy)?))
}

/// Returns whether a packet would pass a limit on its path.
pub fn passes_limits(totals: &[NodeTotals], node_states: &NodeStates, packet: &Packet) -> bool
    requires known { IsKnown (policy_of node_states.now) packet.now }
    requires accepted { IsAccepted (policy_of node_states.now) }
    requires sized { length totals.now ≡ nodes (policy_of node_states.now).tree }
    ensures passes { (values : Values) → AreTotals (policy_of node_states.now) totals.now values →
        result ≡ list_any (passes_on (policy_of node_states.now) values packet.now)
        (way_to (class_of (policy_of node_states.now) packet.now).leaf) }
{
    passes_along(totals, node_states.path(packet).nodes.as_slice(), packet)
}

/// Makes room for a packet at each node on its path. The error means out of memory. Policies whose
/// limits need totals are rare, so this and the next two stay out of the way of the others.
#[inline(never)]
pub fn reserve_totals(
    totals: &mut Option<Vec<NodeTotals>>,
    node_states: &NodeStates,
    packet: &Packet,
) -> Result<(), AllocError>
    requires known { IsKnown (policy_of node_states.now) packet.now }
    requires accepted { IsAccepted (policy_of node_states.now) }
    requires sized { AreSized (policy_of node_states.now) totals.old }
    ensures room { OnOk result (HasTotalsRoom (policy_of node_states.now) packet.now totals.new) }
    ensures kept { (values : Values) → AreKept (policy_of node_states.now) totals.old values →
        AreKept (policy_of node_states.now) totals.new values }
{
    match totals {
        None => Ok(()),
        Some(nodes) => reserve_along(
            nodes.as_mut_slice(),
            node_states.path(packet).nodes.as_slice(),
            packet,
        ),
    }
}

/// Adds a packet at each node on its path, where there is room for it. Takes no memory.
#[inline(never)]
pub fn add_to_totals(
    totals: &mut Option<Vec<NodeTotals>>,
    node_states: &NodeStates,
    packet: &Packet,
)
    requires known { IsKnown (policy_of node_states.now) packet.now }
    requires accepted { IsAccepted (policy_of node_states.now) }
    requires sized { AreSized (policy_of node_states.now) totals.old }
    requires room { HasTotalsRoom (policy_of node_states.now) packet.now totals.old }
    ensures kept { (values : Values) → AreKept (policy_of node_states.now) totals.old values →
        AreFew values → AreKept (policy_of node_states.now) totals.new (with_one_more
        (policy_of node_states.now) packet.now values) }
{
    match totals {
        None => (),
        Some(nodes) => add_along(
            nodes.as_mut_slice(),
            node_states.path(packet).nodes.as_slice(),
            packet,
        ),
    }
}

/// Takes a packet out at each node on its path. Takes no memory.
#[inline(never)]
pub fn take_from_totals(
    totals: &mut Option<Vec<NodeTotals>>,
    node_states: &NodeStates,
    packet: &Packet,
)
    requires known { IsKnown (policy_of node_states.now) packet.now }
    requires accepted { IsAccepted (policy_of node_states.now) }
    requires sized { AreSized (policy_of node_states.now) totals.old }
    ensures kept { (values : Values) → AreKept (policy_of node_states.now) totals.old values →
        AreKept (policy_of node_states.now) totals.new (with_one_fewer
        (policy_of node_states.now) packet.now values) }
{
    match totals {
        None => (),
        Some(nodes) => take_along(
            nodes.as_mut_slice(),
            node_states.path(packet).nodes.as_slice(),
            packet,
        ),
    }
}
