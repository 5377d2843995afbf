//! How much is queued in a leaf or below a node.
ghost use Rattle.std.specs.Prelude.{◌≡◌, ◌+◌, ◌-◌, ◌<◌, ◌^◌, IsSome, OnOk, None};
ghost use Rattle.packet_defs.specs.declared.packet.Packet.{Packet as Known};
ghost use Rattle.rank_defs.specs.declared.environment.FlowKey.{FlowKey as Flow};
ghost use Rattle.rank_defs.specs.FlowGroups.{grouped};
ghost use Rattle.sched_defs.specs.SourceState.{is_over};
ghost use Rattle.sched_core.specs.NodeTotals.{entry_of, count_in, is_in_flow, Amounts, nothing, raised, lowered, passes};

use packet_defs::Packet;
use policy_defs::Limits;
use rank_core::{OrderedKey, key_of};
use rank_defs::{FlowGroup, FlowKey};
use std::alloc::{AllocError, Global};
use std::collections::BTreeMap;

/// How many packets and bytes are queued in a leaf or below a node, and how many packets of each
/// flow. Flows are counted only if the node has a limit for them. Captures choose the flows, so the
/// counts are kept in an ordered map: with a hash map and a known seed, a capture could force each
/// lookup to visit all flows. A flow's entry is removed with its last packet.
#[derive(Drop)]
pub struct NodeTotals {
    limits: Limits,
    group: FlowGroup,
    packets: u64,
    bytes: u128,
    flows: BTreeMap<OrderedKey, u64>,
}

impl NodeTotals {
    ghost use Rattle.sched_core.specs.NodeTotals.{HasRoom, HasAmounts, IsFew};

    /// Returns the counts of a node without packets. Takes no memory.
    pub fn new(alloc: Global, limits: Limits, group: FlowGroup) -> NodeTotals
        ensures limits { result.limits ≡ limits }
        ensures group { result.group ≡ group }
        ensures nothing { HasAmounts result nothing }
    {
        NodeTotals {
            limits,
            group,
            packets: 0,
            bytes: 0,
            flows: BTreeMap::new(alloc),
        }
    }

    /// Returns whether one more packet would pass a limit.
    pub fn passes(&self, packet: &Packet) -> bool
        ensures passes { (v : Amounts) → HasAmounts self.now v →
            result ≡ passes self.now.limits self.now.group v packet.now }
    {
        is_over(self.limits.packets, u128::from(self.packets), 1)
            || is_over(self.limits.bytes, self.bytes, packet.len)
            || self.passes_for_flow(packet)
    }

    /// Returns whether one more packet would pass the limit of its flow.
    fn passes_for_flow(&self, packet: &Packet) -> bool
        ensures passes { (v : Amounts) → HasAmounts self.now v →
            result ≡ is_over self.now.limits.per_flow (v.of_flow
            (grouped self.now.group packet.now.flow) + 1) }
    {
        match self.limits.per_flow {
            None => false,
            limit => {
                let flow = self.group.of(&packet.flow);
                is_over(limit, u128::from(count(&self.flows, &flow)), 1)
            }
        }
    }

    /// Makes room for a packet: its flow gets an entry. The error means out of memory.
    pub fn reserve(&mut self, packet: &Packet) -> Result<(), AllocError>
        ensures room { OnOk result (HasRoom self.new packet.now) }
        ensures kept { (other : Known) → HasRoom self.old other → HasRoom self.new other }
        ensures amounts { (v : Amounts) → HasAmounts self.old v → HasAmounts self.new v }
        ensures limits { self.new.limits ≡ self.old.limits }
        ensures group { self.new.group ≡ self.old.group }
    {
        match self.limits.per_flow {
            None => Ok(()),
            Some(_) => enter(&mut self.flows, &self.group.of(&packet.flow)),
        }
    }

    /// Adds a packet, for which there is room. Takes no memory.
    pub fn add(&mut self, packet: &Packet)
        requires room { HasRoom self.old packet.now }
        ensures amounts { (v : Amounts) → HasAmounts self.old v → IsFew v →
            HasAmounts self.new (raised self.old.group packet.now v) }
        ensures limits { self.new.limits ≡ self.old.limits }
        ensures group { self.new.group ≡ self.old.group }
    {
        self.packets = self.packets.saturating_add(1);
        self.bytes = self.bytes.saturating_add(u128::from(packet.len));
        if self.limits.per_flow.is_some() {
            raise(&mut self.flows, &self.group.of(&packet.flow));
        }
    }

    /// Takes a packet out. Takes no memory.
    pub fn take(&mut self, packet: &Packet)
        ensures amounts { (v : Amounts) → HasAmounts self.old v →
            HasAmounts self.new (lowered self.old.group packet.now v) }
        ensures limits { self.new.limits ≡ self.old.limits }
        ensures group { self.new.group ≡ self.old.group }
    {
        self.packets = self.packets.saturating_sub(1);
        self.bytes = self.bytes.saturating_sub(u128::from(packet.len));
        if self.limits.per_flow.is_some() {
            lower(&mut self.flows, &self.group.of(&packet.flow));
        }
    }
}

/// Returns whether a limit, if there is one, would be passed by this much more.
fn is_over(limit: Option<u32>, queued: u128, more: u32) -> bool
    ensures { result ≡ is_over limit (queued + more) }
{
    match limit {
        None => false,
        Some(limit) => limit < more || u128::from(limit - more) < queued,
    }
}

/// Returns the packets of a flow.
fn count(flows: &BTreeMap<OrderedKey, u64>, flow: &FlowKey) -> u64
    ensures { result ≡ count_in flows.now flow.now }
{
    match flows.get(&key_of(flow)) {
        Some(count) => *count,
        None => 0,
    }
}

/// Gives a flow that has no entry one without packets. The error means out of memory.
fn enter(flows: &mut BTreeMap<OrderedKey, u64>, flow: &FlowKey) -> Result<(), AllocError>
    ensures room { OnOk result (IsSome (entry_of flows.new flow.now)) }
    ensures kept { (other : Flow) → IsSome (entry_of flows.old other) →
        IsSome (entry_of flows.new other) }
    ensures counts { (other : Flow) → count_in flows.new other ≡ count_in flows.old other }
{
    let key = key_of(flow);
    if flows.contains_key(&key) {
        return Ok(());
    }
    flows.insert(key, 0)?;
    Ok(())
}

/// Counts one more packet of a flow, which has an entry.
fn raise(flows: &mut BTreeMap<OrderedKey, u64>, flow: &FlowKey)
    requires room { IsSome (entry_of flows.old flow.now) }
    ensures counts { count_in flows.old flow.now < 2 ^ 63 → (other : Flow) →
        count_in flows.new other ≡ count_in flows.old other + is_in_flow flow.now other }
{
    match flows.get_mut(&key_of(flow)) {
        Some(count) => *count = count.saturating_add(1),
        None => unreachable!(),
    }
}

/// Counts one packet fewer of a flow. Its entry is removed with its last packet.
fn lower(flows: &mut BTreeMap<OrderedKey, u64>, flow: &FlowKey)
    ensures counts { (other : Flow) →
        count_in flows.new other ≡ count_in flows.old other - is_in_flow flow.now other }
{
    let key = key_of(flow);
    let count = count(flows, flow);
    if count < 2 {
        flows.remove(&key);
        return;
    }
    match flows.get_mut(&key) {
        Some(old) => *old = count - 1,
        None => unreachable!(),
    }
}
