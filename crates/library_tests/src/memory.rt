//! Arrivals of which one may run out of memory. The packet that finds no memory leaves no trace.
ghost use Rattle.std.specs.Prelude.{◌≡◌, ◌≤◌};
ghost use Rattle.tree_defs.specs.Tree.{depth};
ghost use Rattle.policy_defs.specs.Accepted.{IsAccepted};
ghost use Rattle.sched_defs.specs.SourceState.{start};
ghost use Rattle.sched_core.specs.Standing.{StandForOne};

use crate::fabrics::NO_FLOW;
use crate::packets::policy_of;
use embed_core::{embed, read_target};
use fabric_core::FlatFabric;
use packet_defs::Packet;
use policy_core::Policy;
use sched_core::{Direct, Scheduler};
use sched_embedded::Embedded;
use std::alloc::Global;
use std::test::Fail;
use tree_core::Taken;

/// Packets depart in the order of their arrival. An arrival pushes at the root and at a leaf.
const IN_ORDER: &[u8] = b"policy 1\nclass some when dscp 46\nclass other\n\
    leaf some using fifo classes some\nleaf other using fifo classes other\n\
    node root using fifo children some other\n";

/// How many packets arrive, so many that queues grow more than once.
const PACKETS: usize = 40;

/// How many departures are asked for: one more, which finds the scheduler empty.
const DEPARTURES: usize = 41;

/// Lets packets arrive, numbered from 0, whether or not there is memory for each. Returns which of
/// them arrived.
fn arrive_round<C: Scheduler>(
    policy: &Policy,
    scheduler: &mut C,
    under: &mut C::Under,
    trace: &mut Taken,
) -> [bool; PACKETS]
    requires policy { C.policy scheduler.old ≡ policy.now.policy }
    requires accepted { IsAccepted policy.now.policy }
    requires stands { C.stands scheduler.old under.old (start policy.now.policy) }
    requires room { depth policy.now.policy.tree ≤ trace.old.room }
    requires no_pushes { C.pushes scheduler.old ≡ 0 }
    ensures stands { StandForOne C.stands policy.now.policy scheduler.new under.new (λ _.
        Unit {0}) }
    ensures policy { C.policy scheduler.new ≡ policy.now.policy }
    ensures departures { C.departures scheduler.new ≡ C.departures scheduler.old }
    ensures room { trace.new.room ≡ trace.old.room }
{
    let mut arrived = [false; PACKETS];
    for number in 0..PACKETS {
        let packet = Packet {
            number: number as u64,
            class: 0,
            len: 4,
            moment: 5,
            flow: NO_FLOW,
        };
        arrived[number] = scheduler.arrive(under, &packet, trace).is_ok();
    }
    arrived
}

/// Asks for departures. Returns the number of each packet that departs.
fn depart_round<C: Scheduler>(
    policy: &Policy,
    scheduler: &mut C,
    under: &mut C::Under,
    trace: &mut Taken,
) -> [Option<u64>; DEPARTURES]
    requires policy { C.policy scheduler.old ≡ policy.now.policy }
    requires accepted { IsAccepted policy.now.policy }
    requires stands { StandForOne C.stands policy.now.policy scheduler.old under.old (λ _.
        Unit {0}) }
    requires room { depth policy.now.policy.tree ≤ trace.old.room }
    requires no_departures { C.departures scheduler.old ≡ 0 }
{
    let mut departed = [None; DEPARTURES];
    for turn in 0..DEPARTURES {
        departed[turn] = scheduler.depart(under, trace).map(|packet| packet.packet);
    }
    departed
}

/// Returns whether exactly the packets that arrived departed, in order.
fn are_those(departed: &[Option<u64>], arrived: &[bool]) -> bool {
    let mut left = departed.iter();
    for (number, came) in arrived.iter().enumerate() {
        if *came && left.next().copied() != Some(Some(number as u64)) {
            return false;
        }
    }
    left.all(|number| number.is_none())
}

/// Lets packets arrive at a new scheduler. Fails if more than one of them finds no memory, or if
/// other packets depart than those that arrived.
fn arrive_and_depart<C: Scheduler>(
    alloc: Global,
    policy: &Policy,
    scheduler: &mut C,
    under: &mut C::Under,
) -> Result<(), Fail>
    requires policy { C.policy scheduler.old ≡ policy.now.policy }
    requires stands { C.stands scheduler.old under.old (start policy.now.policy) }
    requires no_pushes { C.pushes scheduler.old ≡ 0 }
    requires no_departures { C.departures scheduler.old ≡ 0 }
{
    let mut trace = Taken::new(alloc, policy.depth())?;
    let arrived = arrive_round(policy, scheduler, under, &mut trace);
    if arrived.iter().filter(|came| !**came).count() > 1 {
        return Err(Fail::new("several packets found no memory"));
    }
    let departed = depart_round(policy, scheduler, under, &mut trace);
    if !are_those(&departed, &arrived) {
        return Err(Fail::new("the departures are not those of the arrivals"));
    }
    Ok(())
}

#[test]
fn a_packet_finds_no_memory_in_a_tree(rt: HostRuntime) -> Result<(), Fail> {
    let alloc = rt.alloc();
    let policy = policy_of(alloc, IN_ORDER)?;
    let (mut scheduler, mut tree) = Direct::new(alloc, &policy)?;
    arrive_and_depart(alloc, &policy, &mut scheduler, &mut tree)
}

#[test]
fn a_packet_finds_no_memory_in_a_fabric(rt: HostRuntime) -> Result<(), Fail> {
    let alloc = rt.alloc();
    let policy = policy_of(alloc, IN_ORDER)?;
    let target = read_target(alloc, b"arity = 2\nheight = 2\n")?;
    let map = embed(alloc, policy.topo(), &target)?;
    let mut fabric = FlatFabric::new(alloc)?;
    let mut scheduler = Embedded::new(alloc, &policy, map, &target, &mut fabric)?;
    arrive_and_depart(alloc, &policy, &mut scheduler, &mut fabric)
}
