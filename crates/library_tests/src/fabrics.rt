//! A scheduler that is given a fabric which another scheduler filled.
ghost use Rattle.std.specs.Prelude.{◌≡◌, ◌≤◌, [], ◌∷◌, length, ℕ, false, IfOk, IsSomeAnd, IsFalse, IsTrue, OnOk};
ghost use Rattle.tree_defs.specs.Tree.{depth};
ghost use Rattle.tree_defs.specs.Topology.{topology_of};
ghost use Rattle.embed_defs.specs.Target.{IsInRange};
ghost use Rattle.embed_defs.specs.Canonical.{IsCanonical};
ghost use Rattle.policy_defs.specs.Policy.{node_at, no_limits};
ghost use Rattle.policy_defs.specs.Accepted.{IsAccepted};
ghost use Rattle.packet_defs.specs.declared.packet.Packet.{Packet as Known};
ghost use Rattle.sched_defs.specs.SourceState.{SourceState, start, is_full};
ghost use Rattle.sched_defs.specs.Events.{Arrive, CanMake, after};
ghost use Rattle.sched_core.specs.Standing.{StandForOne};
ghost use Rattle.sched_core.specs.PolicyState.{policy_in};
ghost use Rattle.embed_core.specs.Range.{levels_of};
ghost use Rattle.sched_embedded.specs.Embedded.{EmbeddedStands, origin_of};
ghost use Rattle.library_tests.specs.Filled.{IsFilled, IsPlain};

use crate::packets::policy_of;
use embed_core::{Target, embed, read_target};
use fabric_core::{Fabric, FlatFabric};
use outside_core::MemSink;
use packet_defs::Packet;
use policy_core::Policy;
use rank_defs::FlowKey;
use report_core::Report;
use sched_core::Scheduler;
use sched_embedded::Embedded;
use sched_run::depart_line;
use std::alloc::{AllocError, Global};
use std::process::Abort;
use std::test::Fail;
use tree_core::Taken;

/// The packet whose slack ends first departs first.
const LEAST_SLACK: &[u8] = b"policy 1\nclass all\nleaf root using lstf classes all\n";

/// The flow of a packet without an IP header.
pub(crate) const NO_FLOW: FlowKey = FlowKey {
    version: 0,
    source: 0,
    target: 0,
    proto: 0,
    sport: 0,
    dport: 0,
};

const EARLY: Packet = Packet {
    number: 1,
    class: 0,
    len: 4,
    moment: 5,
    flow: NO_FLOW,
};

const LATE: Packet = Packet {
    number: 2,
    class: 0,
    len: 4,
    moment: 9,
    flow: NO_FLOW,
};

/// Returns whether the root has a limit on its packets.
fn is_root_limited(policy: &Policy) -> bool
    ensures limits { IsFalse result → IsSomeAnd (node_at policy.now.policy.tree []) (λ n. n.limits ≡
        no_limits) }
{
    let limits = policy.limits(0);
    if limits.packets.is_some() || limits.bytes.is_some() {
        return true;
    }
    limits.per_flow.is_some()
}

/// Returns whether a policy is a single leaf without variables and without limits.
fn is_plain_leaf(policy: &Policy) -> bool
    ensures plain { IsTrue result → IsPlain policy.now.policy.tree }
    ensures accepted { IsAccepted policy.now.policy }
{
    let transaction = policy.checked(0).transaction();
    if policy.depth() > 0 || !transaction.keeps.is_empty() || is_root_limited(policy) {
        return false;
    }
    transaction.eaches.is_empty()
}

/// Returns whether the packet that was moved last had this rank at the root.
fn is_ranked(trace: &Taken, rank: u64) -> bool {
    matches!(trace.ranks(), [first, ..] if *first == rank)
}

/// Lets two packets arrive. Returns whether they have these ranks at the root.
fn arrive_both<C: Scheduler>(
    policy: &Policy,
    scheduler: &mut C,
    under: &mut C::Under,
    trace: &mut Taken,
    first: &Packet,
    second: &Packet,
    ranks: [u64; 2],
) -> Result<bool, AllocError>
    requires accepted { IsAccepted policy.now.policy }
    requires policy { C.policy scheduler.old ≡ policy.now.policy }
    requires stands { C.stands scheduler.old under.old (start policy.now.policy) }
    requires can { CanMake policy.now.policy (Arrive first.now ∷ Arrive second.now ∷ [])
        (start policy.now.policy) }
    requires unlimited { (p : Known) (s : SourceState) → is_full policy.now.policy p s ≡ false }
    requires room { depth policy.now.policy.tree ≤ trace.old.room }
    requires no_pushes { C.pushes scheduler.old ≡ 0 }
    ensures stands { OnOk result (C.stands scheduler.new under.new
        (after policy.now.policy (Arrive first.now ∷ Arrive second.now ∷ []) (start policy.now.policy))) }
    ensures pushes { OnOk result (C.pushes scheduler.new ≡ 2) }
    ensures departures { C.departures scheduler.new ≡ C.departures scheduler.old }
    ensures policy { C.policy scheduler.new ≡ policy.now.policy }
    ensures origin { C.origin scheduler.new ≡ C.origin scheduler.old }
{
    scheduler.arrive(under, first, trace)?;
    let is_first = is_ranked(trace, ranks[0]);
    scheduler.arrive(under, second, trace)?;
    let is_second = is_ranked(trace, ranks[1]);
    Ok(is_first & is_second)
}

/// Creates a scheduler over a fabric without earlier pushes and pops, and lets two packets arrive.
/// Fails if they don't have these ranks at the root.
fn fill<'a, F: Fabric>(
    alloc: Global,
    policy: &'a Policy,
    target: &Target,
    fabric: &mut F,
    first: &Packet,
    second: &Packet,
    ranks: [u64; 2],
) -> Result<Embedded<'a, F>, Fail>
    requires range { IsInRange target.now.arities target.now.above }
    requires no_pushes { F.pushed fabric.old ≡ 0 }
    requires no_pops { F.popped fabric.old ≡ 0 }
    requires can { CanMake policy.now.policy (Arrive first.now ∷ Arrive second.now ∷ [])
        (start policy.now.policy) }
    requires plain { IsPlain policy.now.policy.tree }
    ensures { IfOk result (λ c. IsFilled F.Fabric policy.now.policy target.now first.now second.now
        c fabric.new) }
{
    let map = embed(alloc, policy.topo(), target)?;
    let mut scheduler = Embedded::new(alloc, policy, map, target, fabric)?;
    let mut trace = Taken::new(alloc, policy.depth())?;
    let is_ranked = arrive_both(
        policy,
        &mut scheduler,
        fabric,
        &mut trace,
        first,
        second,
        ranks,
    )?;
    if !is_ranked {
        return Err(Fail::new("a rank differs"));
    }
    Ok(scheduler)
}

/// Makes three departures as events 3 to 5, and writes their lines.
fn depart_three<C: Scheduler>(
    alloc: Global,
    policy: &Policy,
    scheduler: &mut C,
    under: &mut C::Under,
    sink: &mut MemSink,
) -> Result<(), Fail>
    requires policy { C.policy scheduler.old ≡ policy.now.policy }
    requires stands { StandForOne C.stands policy.now.policy scheduler.old under.old (λ _.
        Unit {0}) }
    requires no_departures { C.departures scheduler.old ≡ 0 }
{
    let mut trace = Taken::new(alloc, policy.depth())?;
    let mut report = Report::new(alloc)?;
    for event in 3..6 {
        depart_line(
            policy,
            scheduler,
            under,
            &mut trace,
            &mut report,
            sink,
            event,
        )?;
    }
    report.finish(sink)?;
    Ok(())
}

/// Lets the same two packets arrive at two schedulers in opposite orders. The first scheduler then
/// works with the other's fabric, and its departures follow the queues of that fabric.
fn exchange<F: Fabric>(
    alloc: Global,
    policy: &Policy,
    target: &Target,
    fabric: &mut F,
    other: &mut F,
    sink: &mut MemSink,
) -> Result<(), Fail>
    requires range { IsInRange target.now.arities target.now.above }
    requires no_pushes { F.pushed fabric.old ≡ 0 }
    requires no_pops { F.popped fabric.old ≡ 0 }
    requires no_pushes_other { F.pushed other.old ≡ 0 }
    requires no_pops_other { F.popped other.old ≡ 0 }
{
    if !is_plain_leaf(policy) {
        return Err(Fail::new("the leaf has variables or a limit"));
    }
    let mut first = fill(alloc, policy, target, fabric, &EARLY, &LATE, [5, 9])?;
    let _second = fill(alloc, policy, target, other, &LATE, &EARLY, [9, 9])?;
    depart_three(alloc, policy, &mut first, other, sink)
}

#[test]
fn a_fabric_filled_by_another(rt: HostRuntime) -> Result<(), Fail> {
    let alloc = rt.alloc();
    let policy = policy_of(alloc, LEAST_SLACK)?;
    let target = read_target(alloc, b"arity = 2\nheight = 0\n")?;
    let mut fabric = FlatFabric::new(alloc)?;
    let mut other = FlatFabric::new(alloc)?;
    let mut sink = MemSink::new(alloc, 100, 64, Vec::new(alloc))?;
    exchange(alloc, &policy, &target, &mut fabric, &mut other, &mut sink)?;
    assert_eq!(rt;
        sink.bytes(),
        b"d 3 2 root 9\nd 4 1 root 9\ne 5\n".as_slice()
    );
    Ok(())
}
