//! The queues of the nodes that packets pass.
ghost use Rattle.std.specs.Prelude.{◌≡◌, ◌<◌, length, IfOk, IfSome, OnOk};
ghost use Rattle.std.specs.List.{AllByRecursion};
ghost use Rattle.embed_defs.specs.Target.{IsArity};
ghost use Rattle.size_core.specs.Stores.{spills_in};
ghost use Rattle.size_core.specs.Paths.{address_in};
ghost use Rattle.size_core.specs.Sizes.{stores_at};
ghost use Rattle.size_core.specs.Results.{AreUnused};
ghost use Rattle.size_core.specs.Limits.{is_full, is_wide, first_of};
ghost use Rattle.size_core.specs.Hops.{rank_on, value_on, passed_at};

use crate::hop::Hop;
use crate::limits::{Limit, Limits, Passed};
use crate::node::Node;
use crate::places::Known;
use crate::stores::Stores;
use std::alloc::{AllocError, Global};
use target_core::Target;

/// The queue of each node, and the first push that passed a limit.
#[derive(Drop)]
pub(crate) struct Queues {
    pub nodes: Vec<Node>,
    pub limits: Limits,
    pub passed: Option<Passed>,
}

impl Queues {
    ghost use Rattle.size_core.specs.Hops.{Watched, AreInside, pushed_at, pushed_along, popped_at, popped_along};
    ghost use Rattle.size_core.specs.Watching.{Follows};

    /// Pushes a packet at a node, in the event with this number. The error is out of memory.
    fn push_at(
        &mut self,
        event: u64,
        packet: u64,
        ranks: &[u64],
        hop: &Hop,
    ) -> Result<(), AllocError>
        requires inside { hop.now.node < length self.old.nodes.items }
        ensures ok { OnOk result ((s : Watched) → Follows self.old s →
            Follows self.new (pushed_at self.old.limits event packet ranks.now hop.now s)) }
        ensures count { length self.new.nodes.items ≡ length self.old.nodes.items }
        ensures limits { self.new.limits ≡ self.old.limits }
    {
        let rank = rank_on(ranks, hop);
        let len = self.nodes[hop.node].len();
        self.passed = first_of(
            self.passed,
            check(self.limits, event, packet, hop.node, len, rank),
        );
        self.nodes[hop.node].push(rank, value_on(packet, hop))?;
        Ok(())
    }

    /// Pushes a packet at each of these nodes. The error is out of memory.
    pub fn push_along(
        &mut self,
        event: u64,
        packet: u64,
        ranks: &[u64],
        hops: &[Hop],
    ) -> Result<(), AllocError>
        requires inside { AreInside (length self.old.nodes.items) hops.now }
        ensures ok { OnOk result ((s : Watched) → Follows self.old s →
            Follows self.new (pushed_along self.old.limits event packet ranks.now hops.now s)) }
        ensures count { length self.new.nodes.items ≡ length self.old.nodes.items }
        ensures limits { self.new.limits ≡ self.old.limits }
    {
        match hops {
            [] => Ok(()),
            [hop, below @ ..] => {
                self.push_at(event, packet, ranks, hop)?;
                self.push_along(event, packet, ranks, below)?;
                Ok(())
            }
        }
    }

    /// Pops an entry at each of these nodes.
    pub fn pop_along(&mut self, hops: &[Hop])
        requires inside { AreInside (length self.old.nodes.items) hops.now }
        ensures ok { (s : Watched) → Follows self.old s →
            Follows self.new (popped_along hops.now s) }
        ensures count { length self.new.nodes.items ≡ length self.old.nodes.items }
        ensures limits { self.new.limits ≡ self.old.limits }
    {
        if let [hop, below @ ..] = hops {
            self.pop_at(hop);
            self.pop_along(below);
        }
    }

    /// Pops an entry at a node.
    fn pop_at(&mut self, hop: &Hop)
        requires inside { hop.now.node < length self.old.nodes.items }
        ensures ok { (s : Watched) → Follows self.old s →
            Follows self.new (popped_at hop.now s) }
        ensures count { length self.new.nodes.items ≡ length self.old.nodes.items }
        ensures limits { self.new.limits ≡ self.old.limits }
    {
        self.nodes[hop.node].pop();
    }
}

/// Returns the rank of a packet at a node.
fn rank_on(ranks: &[u64], hop: &Hop) -> u64
    ensures { result ≡ rank_on ranks.now hop.now }
{
    match ranks.get(hop.step as usize) {
        Some(rank) => *rank,
        None => 0,
    }
}

/// Returns the value of a packet at a node.
fn value_on(packet: u64, hop: &Hop) -> u64
    ensures { result ≡ value_on packet hop.now }
{
    match hop.digit {
        Some(digit) => u64::from(digit),
        None => packet,
    }
}

/// Returns the first of two that is there.
fn first_of(first: Option<Passed>, second: Option<Passed>) -> Option<Passed>
    ensures { result ≡ first_of first second }
{
    match first {
        Some(passed) => Some(passed),
        None => second,
    }
}

/// Returns the first limit that a push passes, if it passes one.
fn check(
    limits: Limits,
    event: u64,
    packet: u64,
    node: usize,
    len: usize,
    rank: u64,
) -> Option<Passed>
    ensures { result ≡ passed_at limits event packet node len rank }
{
    let limit = if is_full(limits.entries, len as u64) {
        Limit::Entries
    } else if is_wide(limits.bits, rank) {
        Limit::Bits
    } else {
        return None;
    };
    Some(Passed {
        event,
        packet,
        node,
        limit,
    })
}

/// Returns whether a queue with this number of entries has no room for another one.
fn is_full(limit: Option<u64>, len: u64) -> bool
    ensures { result ≡ is_full limit len }
{
    match limit {
        Some(most) => most <= len,
        None => false,
    }
}

/// Returns whether a rank doesn't fit in this number of bits.
fn is_wide(limit: Option<u32>, rank: u64) -> bool
    ensures { result ≡ is_wide limit rank }
{
    match limit {
        Some(bits) => bits < 64 && 1 << bits <= rank,
        None => false,
    }
}

/// Returns an unused node for each address. The error is out of memory.
pub(crate) fn empty_nodes(
    alloc: Global,
    known: &Known,
    target: &Target,
    stores: bool,
) -> Result<Vec<Node>, AllocError>
    requires narrow { AllByRecursion IsArity target.now.arities }
    ensures count { IfOk result (λ v. length v.items ≡ length known.now.keys) }
    ensures unused { IfOk result (λ v. AreUnused target.now.arities stores known.now.keys v.items) }
{
    let mut nodes = Vec::new(alloc);
    for index in 0..known.len() {
        let made = stores_of(alloc, target, depth_of(known, index), stores)?;
        nodes.push(Node::new(alloc, made))?;
    }
    Ok(nodes)
}

/// Returns the number of digits of a node's address.
fn depth_of(known: &Known, index: usize) -> usize
    ensures { IfSome (address_in known.now.keys index) (λ b. result ≡ length b) }
{
    match known.get_index(index) {
        Some(address) => address.len(),
        None => 0,
    }
}

/// Returns the empty stores of a node at a depth, if they are asked for. The error is out of
/// memory.
fn stores_of(
    alloc: Global,
    target: &Target,
    depth: usize,
    stores: bool,
) -> Result<Option<Stores>, AllocError>
    requires narrow { AllByRecursion IsArity target.now.arities }
    ensures stores { IfOk result (λ s. s ≡ stores_at target.now.arities stores depth) }
    ensures none { IfOk result (λ s. spills_in s ≡ 0) }
{
    if !stores {
        return Ok(None);
    }
    let flows = match target.arities.as_slice().get(depth) {
        Some(arity) => *arity as usize,
        None => 1,
    };
    let made = Stores::new(alloc, flows)?;
    Ok(Some(made))
}
