//! The state that each scheduler keeps itself.
ghost use Rattle.std.specs.Prelude.{◌≡◌, ◌<◌, ◌≤◌, ◌+◌, ◌^◌, ℕ, Some, is_ok, if◌then◌else◌, OnOk, OnErr, IfOk};
ghost use Rattle.std.proofs.Props.{props};
ghost use Rattle.tree_defs.specs.Tree.{depth};
ghost use Rattle.tree_defs.specs.SourceTree.{size};
ghost use Rattle.packet_defs.specs.declared.packet.Packet.{Packet as Known};
ghost use Rattle.policy_defs.specs.Accepted.{IsAccepted};
ghost use Rattle.sched_defs.specs.SourceState.{SourceState, start, class_of, arrival_ranks, is_full, dropped, pushed, departed};
ghost use Rattle.sched_defs.specs.Sound.{IsKnown};
ghost use Rattle.sched_defs.specs.Events.{CanArrive};
ghost use Rattle.sched_core.specs.Agreement.{HasFlowRoom};
ghost use Rattle.sched_core.specs.Arrivals.{leaf_number};
ghost use Rattle.sched_core.specs.Departures.{next_departed};
ghost use Rattle.sched_core.specs.Held.{held_at};

use crate::held::Held;
use crate::node_states::NodeStates;
use crate::node_totals::NodeTotals;
use crate::totals::{add_to_totals, passes_limits, reserve_totals, take_from_totals, totals_of};
use packet_defs::{BLANK, Departed, Packet};
use policy_core::Policy;
use std::alloc::{AllocError, Global};
use tree_core::Taken;

/// The state that a scheduler keeps itself, whichever component owns its queues: the nodes'
/// variables, the queued packets, how many of them are at each leaf (by node number), how much is
/// queued at each node if the policy's limits need it, and the latest timestamp. The flow of each
/// queued packet has room at its leaf, so a departure takes no memory. A packet that departs is
/// written to `leaver`, so that no blank packet is made for it.
#[derive(Drop)]
pub struct PolicyState<'a> {
    node_states: NodeStates<'a>,
    held: Held,
    filled: Vec<u64>,
    totals: Option<Vec<NodeTotals>>,
    moment: u64,
    pushes: u64,
    departures: u64,
    leaver: Packet,
    ghost room: { (n : ℕ) (p : Known) → held_at held n ≡ Some p → HasFlowRoom node_states p } by { Prim.hlevel props },
}

impl<'a> PolicyState<'a> {
    ghost use Rattle.sched_core.specs.PolicyState.{policy_in, IsOwn, IsOfOne, IsOfEach, IsOfEachPopping, PopsNext, CanHandleOwn, HasPushed, HasNotPushed, CountsAre};

    /// Returns the state before the first packet. The error means out of memory.
    pub fn new(alloc: Global, policy: &'a Policy) -> Result<PolicyState<'a>, AllocError>
        ensures start { IfOk result (λ own. IsOwn own (start policy.now.policy)) }
        ensures policy { IfOk result (λ own. policy_in own ≡ policy.now.policy) }
        ensures pushes { IfOk result (λ own. own.pushes ≡ 0) }
        ensures departures { IfOk result (λ own. own.departures ≡ 0) }
    {
        Ok(PolicyState {
            node_states: NodeStates::new(alloc, policy)?,
            held: Held::new(alloc),
            filled: vec![in alloc; 0; policy.count() as usize]?,
            totals: totals_of(alloc, policy)?,
            moment: 0,
            pushes: 0,
            departures: 0,
            leaver: BLANK,
        })
    }

    /// Returns the address of the leaf of a packet's class.
    #[inline(always)]
    pub fn address(&self, packet: &Packet) -> &[u32]
        requires known { IsKnown (policy_in self.now) packet.now }
        ensures address { result.now ≡ (class_of (policy_in self.now) packet.now).leaf }
    {
        self.node_states.path(packet).digits
    }

    /// Returns whether a packet would pass a limit on the path to the leaf of its class.
    #[inline(always)]
    pub fn is_full(&self, packet: &Packet) -> bool
        requires accepted { IsAccepted (policy_in self.now) }
        requires stands { IsOfOne self.now (λ _. IsKnown (policy_in self.now) packet.now) }
        ensures full { IsOfEach self.now (λ s. result ≡ is_full (policy_in self.now) packet.now s) }
    {
        match &self.totals {
            None => {
                let path = self.node_states.path(packet);
                match path.limit {
                    None => false,
                    Some(limit) => u64::from(limit) == self.filled[path.leaf as usize],
                }
            }
            Some(totals) => passes_limits(totals.as_slice(), &self.node_states, packet),
        }
    }

    /// Drops a packet: only the latest timestamp may change. Returns the number of the packet's
    /// leaf.
    pub fn drop_packet(&mut self, packet: &Packet) -> u32
        requires known { IsKnown (policy_in self.old) packet.now }
        ensures state { (s : SourceState) → IsOwn self.old s →
            IsOwn self.new (dropped packet.now s) }
        ensures leaf { result ≡ leaf_number (policy_in self.old) packet.now }
        ensures pushes { self.new.pushes ≡ self.old.pushes }
        ensures departures { self.new.departures ≡ self.old.departures }
        ensures policy { policy_in self.new ≡ policy_in self.old }
    {
        self.moment = self.moment.max(packet.moment);
        self.node_states.path(packet).leaf
    }

    /// Takes in a packet: the push steps run on its path, and `trace` gets the digits and the
    /// ranks. Returns the number of its leaf. The error means out of memory.
    #[inline(always)]
    pub fn admit(&mut self, packet: &Packet, trace: &mut Taken) -> Result<u32, AllocError>
        requires can { CanHandleOwn self.old (λ s. CanArrive (policy_in self.old) s packet.now)
            trace.old self.old.pushes }

        ensures ok { OnOk result (IsOfEach self.old (λ s. IsOwn self.new
            (pushed (policy_in self.old) packet.now s))) }
        ensures leaf { IfOk result (λ leaf. leaf ≡ leaf_number (policy_in self.old) packet.now) }
        ensures way { OnOk result (HasPushed self.old packet.now trace.new) }
        ensures err { OnErr result (HasNotPushed self.old self.new trace.old trace.new) }
        ensures room { trace.new.room ≡ trace.old.room }
        ensures counts { CountsAre self.new (if is_ok result then self.old.pushes +
            1 else self.old.pushes) self.old.departures }
        ensures policy { policy_in self.new ≡ policy_in self.old }
    {
        let leaf = self.node_states.path(packet).leaf;
        self.node_states.reserve(packet)?;
        if self.totals.is_some() {
            reserve_totals(&mut self.totals, &self.node_states, packet)?;
        }
        self.held.put(packet)?;
        let moment = self.moment.max(packet.moment);
        self.node_states.push_steps(packet, moment, trace);
        self.moment = moment;
        if self.totals.is_some() {
            add_to_totals(&mut self.totals, &self.node_states, packet);
        }
        self.filled[leaf as usize] += 1;
        self.pushes += 1;
        Ok(leaf)
    }

    /// Releases the packet that was popped with these digits and ranks: the pop steps run on its
    /// path. Takes no memory.
    #[inline(always)]
    pub fn release(&mut self, number: u64, digits: &[u32], ranks: &[u64]) -> Departed
        requires accepted { IsAccepted (policy_in self.old) }
        requires stands { IsOfOne self.old (λ s. PopsNext s number digits.now ranks.now) }
        requires few { self.old.departures < 2 ^ 61 }

        ensures state { IsOfEachPopping self.old number digits.now ranks.now (λ s.
            IsOwn self.new (departed (policy_in self.old) s)) }
        ensures value { IsOfEachPopping self.old number digits.now ranks.now (λ s.
            next_departed (policy_in self.old) s ≡ Some result) }
        ensures pushes { self.new.pushes ≡ self.old.pushes }
        ensures departures { self.new.departures ≡ self.old.departures + 1 }
        ensures policy { policy_in self.new ≡ policy_in self.old }
    {
        self.departures += 1;
        if !self.held.take(number, &mut self.leaver) {
            unreachable!()
        }
        let leaf = self.node_states.path(&self.leaver).leaf;
        self.node_states
            .pop_steps(&self.leaver, digits, ranks, self.moment);
        if self.totals.is_some() {
            take_from_totals(&mut self.totals, &self.node_states, &self.leaver);
        }
        self.filled[leaf as usize] -= 1;
        Departed {
            packet: number,
            class: self.leaver.class,
            leaf,
            len: self.leaver.len,
        }
    }

    /// Counts a departure that finds nothing.
    #[inline(always)]
    pub fn count_empty_departure(&mut self)
        requires few { self.old.departures < 2 ^ 61 }
        ensures state { (s : SourceState) → IsOwn self.old s → IsOwn self.new s }
        ensures pushes { self.new.pushes ≡ self.old.pushes }
        ensures departures { self.new.departures ≡ self.old.departures + 1 }
        ensures policy { policy_in self.new ≡ policy_in self.old }
    {
        self.departures += 1;
    }

    /// Returns how many packets are queued.
    #[inline(always)]
    pub fn held(&self) -> u64
        ensures { IsOfEach self.now (λ s. result ≡ size s.tree) }
    {
        self.held.len()
    }

    /// Returns the latest timestamp of the packets so far, in nanoseconds.
    #[inline(always)]
    pub fn now(&self) -> u64
        ensures { (s : SourceState) → IsOwn self.now s → result ≡ s.now }
    {
        self.moment
    }
}
