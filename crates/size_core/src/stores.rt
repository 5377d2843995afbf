//! The ranks in the rank stores of a node.
ghost use Rattle.std.specs.Prelude.{◌≡◌, ◌+◌, ◌≤◌, ◌<◌, ◌-◌, ◌^◌, nat_lt, [], ◌∷◌, ◌++◌, length, map, replicate, IfOk, OnOk, OnErr};
ghost use Rattle.std.specs.VecDeque.{deque_items};
ghost use Rattle.size_core.specs.Stores.{no_stores, head_in, with_spill, flow_of, last_rank, leads, store_pushed, store_popped};

use crate::size::StoreUse;
use std::alloc::{AllocError, Global};
use std::collections::VecDeque;
use std::marker::Model;

/// The ranks in the store of each flow, the number of spilled entries, and the use of both so far.
#[derive(Drop)]
pub(crate) struct Stores {
    flows: Vec<VecDeque<u64>>,
    /// The number of flows with a stored rank.
    heads: u64,
    spilled: u64,
    most: StoreUse,
}

impl Model for Stores {
    ghost use Rattle.std.specs.Prelude.{◌≡◌, ◌≤◌, map, length};
    ghost use Rattle.std.specs.VecDeque.{deque_items};
    ghost use Rattle.size_core.specs.Stores.{Stores, heads_in};

    ghost Value = { Stores };

    ghost view = { λ s. record {
      flows = map deque_items s.flows.items;
      spilled = s.spilled;
      most = s.most;
    } };

    ghost invariant = { λ s. (s.heads ≡ heads_in (map deque_items s.flows.items))
        × (s.spilled ≤ s.most.spills) × (1 ≤ length s.flows.items) };
}

impl Stores {
    /// Returns the empty stores of a node with this number of flows. The error is out of memory.
    pub fn new(alloc: Global, flows: usize) -> Result<Stores, AllocError>
        requires some { 1 ≤ flows }
        ensures empty { IfOk result (λ s. s ≡ no_stores flows) }
    {
        Ok(Stores {
            flows: no_flows(alloc, flows)?,
            heads: 0,
            spilled: 0,
            most: StoreUse {
                heads: 0,
                stored: 0,
                spilled: 0,
                spills: 0,
            },
        })
    }

    /// Stores a rank in the flow of a value. It spills if it is below the last rank there. The
    /// error is out of memory.
    pub fn push(&mut self, rank: u64, value: u64) -> Result<(), AllocError>
        requires few { self.old.most.spills < 2 ^ 62 }
        ensures pushed { OnOk result (self.new ≡ store_pushed rank value self.old) }
        ensures spills { self.new.most.spills ≤ self.old.most.spills + 1 }
        ensures err { OnErr result (self.new ≡ self.old) }
    {
        let flow = flow_of(self.flows.len(), value);
        if falls(&self.flows[flow], rank) {
            self.spill();
            return Ok(());
        }
        let more = lacks_head(&self.flows[flow]);
        let stored = store_rank(&mut self.flows[flow], rank)?;
        self.heads += more;
        self.most.heads = self.most.heads.max(self.heads);
        self.most.stored = self.most.stored.max(stored);
        Ok(())
    }

    /// Removes the first rank of the flow of a value, if it is this one. Otherwise a spilled entry
    /// is removed.
    pub fn pop(&mut self, rank: u64, value: u64)
        ensures popped { self.new ≡ store_popped rank value self.old }
    {
        let flow = flow_of(self.flows.len(), value);
        if !leads(&self.flows[flow], rank) {
            self.spilled = self.spilled.saturating_sub(1);
            return;
        }
        let _ = self.flows[flow].pop_front();
        self.heads -= lacks_head(&self.flows[flow]);
    }

    /// Counts an entry that spilled.
    fn spill(&mut self)
        requires few { self.old.most.spills < 2 ^ 62 }
        ensures spilled { self.new ≡ with_spill self.old }
    {
        self.spilled += 1;
        self.most.spilled = self.most.spilled.max(self.spilled);
        self.most.spills += 1;
    }

    /// Returns the use so far.
    pub fn most(&self) -> StoreUse
        ensures { result ≡ self.now.most }
    {
        self.most
    }
}

/// Returns this number of empty flows.
fn no_flows(alloc: Global, flows: usize) -> Result<Vec<VecDeque<u64>>, AllocError>
    ensures empty { IfOk result (λ v. map deque_items v.items ≡ replicate flows []) }
    ensures count { IfOk result (λ v. length v.items ≡ flows) }
{
    let mut stores = Vec::with_capacity(alloc, flows)?;
    for _ in 0..flows {
        stores.push(VecDeque::new(alloc))?;
    }
    Ok(stores)
}

/// Appends a rank to a store, and returns the number of its ranks. The error is out of memory.
fn store_rank(store: &mut VecDeque<u64>, rank: u64) -> Result<u64, AllocError>
    ensures items { OnOk result (deque_items store.new ≡ deque_items store.old ++ rank ∷ []) }
    ensures stored { IfOk result (λ n. n ≡ length (deque_items store.old) + 1) }
    ensures err { OnErr result (deque_items store.new ≡ deque_items store.old) }
{
    store.reserve(1)?;
    store.push_back_reserved(rank);
    Ok(store.len() as u64)
}

/// Returns 1 if a store is empty, and else 0.
fn lacks_head(store: &VecDeque<u64>) -> u64
    ensures { result ≡ 1 - head_in (deque_items store.now) }
{
    u64::from(store.is_empty())
}

/// Returns the flow of a value. A value without a flow of its own has the last flow.
fn flow_of(flows: usize, value: u64) -> usize
    requires some { 1 ≤ flows }
    ensures flow { result ≡ flow_of flows value }
    ensures within { result < flows }
{
    let last = flows - 1;
    if value < last as u64 {
        value as usize
    } else {
        last
    }
}

/// Returns whether a rank is below the last one of a store.
fn falls(store: &VecDeque<u64>, rank: u64) -> bool
    ensures { result ≡ nat_lt rank (last_rank (deque_items store.now)) }
{
    match store.back() {
        Some(last) => rank < *last,
        None => false,
    }
}

/// Returns whether the first rank of a store is this one.
fn leads(store: &VecDeque<u64>, rank: u64) -> bool
    ensures { result ≡ leads rank (deque_items store.now) }
{
    match store.front() {
        Some(first) => *first == rank,
        None => false,
    }
}
