//! The variables of a policy's nodes, and the steps of the nodes on a packet's path.
ghost use Rattle.std.specs.Prelude.{◌≡◌, ◌≤◌, ◌<◌, ◌+◌, ◌∷◌, [], length, IfOk, OnOk};
ghost use Rattle.tree_defs.specs.Tree.{depth, nodes, LeadsToLeaf};
ghost use Rattle.rank_defs.specs.Programs.{max_rank};
ghost use Rattle.rank_defs.specs.Shapes.{IsEnvInRange, max_len};
ghost use Rattle.packet_defs.specs.declared.packet.Packet.{Packet as Known};
ghost use Rattle.policy_core.specs.Numbering.{address_at};
ghost use Rattle.policy_core.specs.Parts.{told};
ghost use Rattle.sched_defs.specs.Visits.{States, env_for, rank_at, ranks_pushed, after_pushes, after_pops};
ghost use Rattle.sched_defs.specs.SourceState.{first_states, class_of, way_in, way_out};
ghost use Rattle.sched_defs.specs.Sound.{IsKnown};
ghost use Rattle.sched_core.specs.Kept.{AreNodeStates, AreNodeStates-prop};
ghost use Rattle.policy_defs.specs.Accepted.{IsAccepted, AreMarksInRange};
ghost use Rattle.sched_core.specs.PathNodes.{IsClassPath, AreWays, AreWays-prop};
ghost use Rattle.sched_core.specs.Ways.{AreLowRanks, IsAtLevel, tree_for, stop, ForValues, ValuesBecome, KeepsRoom};

use crate::first::first_states;
use crate::path_node::{ClassPath, PathNode, class_paths};
use packet_defs::Packet;
use policy_core::{Marks, Policy};
use rank_core::{Env, Form, NodeState, Who, pop_by_form, push_by_form};
use rank_defs::{FlowGroup, FlowKey};
use std::alloc::{AllocError, Global};
use tree_core::Taken;

/// The variables of a policy's nodes and leaves, with room for flows at the leaves, and what the
/// events of each class need.
#[derive(Drop)]
pub struct NodeStates<'a> {
    policy: &'a Policy,
    states: Vec<NodeState>,
    paths: Vec<ClassPath<'a>>,
    ghost kept: { AreNodeStates policy.now.policy.tree states.items } by { AreNodeStates-prop policy.now.policy.tree states.items },
    ghost known: { AreWays policy.now.policy paths.items } by { AreWays-prop policy.now.policy paths.items },
}

impl<'a> NodeStates<'a> {
    ghost use Rattle.sched_core.specs.Agreement.{policy_of, AreStates, HasFlowRoom, HasRoomFor, ForStates, StatesBecome, CanStep, KeepsRooms, HasSteps};

    /// Returns variables with their first values. The error means out of memory.
    pub fn new(alloc: Global, policy: &'a Policy) -> Result<NodeStates<'a>, AllocError>
        ensures policy { IfOk result (λ s. policy_of s ≡ policy.now.policy) }
        ensures first { IfOk result (λ s. AreStates s (first_states policy.now.policy.tree)) }
    {
        Ok(NodeStates {
            policy,
            states: first_states(alloc, policy)?,
            paths: class_paths(alloc, policy)?,
        })
    }

    /// Returns what the events of a packet's class need.
    #[inline(always)]
    pub fn path(&self, packet: &Packet) -> &ClassPath<'a>
        requires known { IsKnown (policy_of self.now) packet.now }
        ensures path { IsClassPath (policy_of self.now) (class_of (policy_of self.now) packet.now)
            result.now }
    {
        &self.paths[packet.class as usize]
    }

    /// Makes room for a flow at a leaf. The error means out of memory. Leaves that group flows are
    /// rare, so this stays out of the way of the others.
    #[inline(never)]
    fn reserve_at(&mut self, leaf: u32, flow: &FlowKey) -> Result<(), AllocError>
        requires there { leaf < nodes (policy_of self.old).tree }
        requires leads { LeadsToLeaf (policy_of self.old).tree
            (address_at (policy_of self.old).tree leaf) }
        ensures room { OnOk result (HasRoomFor self.new
            (address_at (policy_of self.old).tree leaf) flow.now) }
        ensures states { (values : States) → AreStates self.old values → AreStates self.new values }
        ensures kept { (other : Known) → HasFlowRoom self.old other → HasFlowRoom self.new other }
        ensures policy { policy_of self.new ≡ policy_of self.old }
    {
        self.states[leaf as usize].reserve(flow)
    }

    /// Makes room for a packet's flow at the leaf of its class. The error means out of memory.
    #[inline(always)]
    pub fn reserve(&mut self, packet: &Packet) -> Result<(), AllocError>
        requires known { IsKnown (policy_of self.old) packet.now }
        requires accepted { IsAccepted (policy_of self.old) }
        ensures room { OnOk result (HasFlowRoom self.new packet.now) }
        ensures states { (values : States) → AreStates self.old values → AreStates self.new values }
        ensures kept { (other : Known) → HasFlowRoom self.old other → HasFlowRoom self.new other }
        ensures policy { policy_of self.new ≡ policy_of self.old }
    {
        let path = self.path(packet);
        let leaf = path.leaf;
        let group = path.group;
        match group {
            FlowGroup::FiveTuple => self.states[leaf as usize].reserve(&packet.flow),
            _ => {
                let key = group.of(&packet.flow);
                self.reserve_at(leaf, &key)
            }
        }
    }

    /// Runs the push steps from the root to the leaf of a packet's class, and sets `trace` to the
    /// digits and the ranks. The steps see the timestamp (`moment`), in nanoseconds, as `now`.
    /// Takes no memory.
    pub fn push_steps(&mut self, packet: &Packet, moment: u64, trace: &mut Taken)
        requires ready { CanStep self.old packet.now }
        requires moment { moment ≤ max_rank }
        requires levels { depth (policy_of self.old).tree ≤ trace.old.room }
        ensures trace { HasSteps self.old packet.now trace.old trace.new }
        ensures ranks { ForStates self.old (λ v. trace.new.ranks ≡
            ranks_pushed v (way_in (policy_of self.old) packet.now moment)) }
        ensures states { StatesBecome self.old self.new (after_pushes
            (way_in (policy_of self.old) packet.now moment)) }
        ensures kept { KeepsRooms self.old self.new }
    {
        let path = &self.paths[packet.class as usize];
        let digits = path.digits;
        let passage = PacketPath {
            policy: self.policy,
            path_nodes: path.nodes.as_slice(),
            packet,
            moment,
        };
        let states = self.states.as_mut_slice();
        trace.clear();
        for level in 0..digits.len() {
            let rank = push_at(states, &passage, digits, level);
            trace.step(digits[level], rank);
        }
        let rank = push_at(states, &passage, digits, digits.len());
        trace.last(rank);
    }

    /// Runs the pop steps from the root to the leaf of a packet's class, with the ranks that were
    /// taken on these digits. The steps see the timestamp (`moment`), in nanoseconds, as `now`.
    /// Takes no memory.
    pub fn pop_steps(&mut self, packet: &Packet, digits: &[u32], ranks: &[u64], moment: u64)
        requires ready { CanStep self.old packet.now }
        requires moment { moment ≤ max_rank }
        requires leaf_address { digits.now ≡ (class_of (policy_of self.old) packet.now).leaf }
        requires even { length ranks.now ≡ length digits.now + 1 }
        requires limit { AreLowRanks ranks.now }
        ensures states { StatesBecome self.old self.new (after_pops
            (way_out (policy_of self.old) packet.now digits.now moment) ranks.now) }
        ensures kept { KeepsRooms self.old self.new }
    {
        let path = &self.paths[packet.class as usize];
        let passage = PacketPath {
            policy: self.policy,
            path_nodes: path.nodes.as_slice(),
            packet,
            moment,
        };
        let states = self.states.as_mut_slice();
        for level in 0..digits.len() {
            pop_at(states, &passage, digits, level, ranks[level]);
        }
        let leaf = digits.len();
        pop_at(states, &passage, digits, leaf, ranks[leaf]);
    }
}

/// A packet on its path to the leaf of its class, with the nodes on it and the time that the steps
/// see.
#[derive(Drop)]
pub struct PacketPath<'a> {
    pub policy: &'a Policy,
    pub path_nodes: &'a [PathNode<'a>],
    pub packet: &'a Packet,
    pub moment: u64,
}

impl PacketPath<'_> {
    /// Returns the inputs of a step with these marks.
    #[inline(always)]
    fn env(&self, marks: &Marks) -> Env
        requires len { self.now.packet.now.len ≤ max_len }
        requires moment { self.now.moment ≤ max_rank }
        requires marks { AreMarksInRange (told marks.now) }
        ensures env { result ≡ env_for self.now.packet.now self.now.moment (told marks.now) }
        ensures range { IsEnvInRange result }
    {
        Env {
            len: self.packet.len,
            now: self.moment,
            prio: marks.prio,
            weight: marks.weight,
            slack: marks.slack,
        }
    }
}

/// Runs any push step at a level of the path. Returns the packet's rank there. A call of its own
/// keeps the usual steps short.
#[inline(never)]
fn push_lines(states: &mut [NodeState], passage: &PacketPath, digits: &[u32], level: usize) -> u64
    requires there { IsAtLevel passage.now digits.now level states.old }
    ensures rank { ForValues passage.now states.old (λ v. result ≡
        rank_at v (stop passage.now level)) }
    ensures values { ValuesBecome passage.now states.old states.new
        (after_pushes (stop passage.now level ∷ [])) }
    ensures kept { AreNodeStates (tree_for passage.now) states.new }
    ensures room { KeepsRoom passage.now states.old states.new }
    ensures limit { result ≤ max_rank }
{
    let path_node = &passage.path_nodes[level];
    let transaction = path_node.transaction;
    let state = &mut states[path_node.node as usize];
    let env = passage.env(&path_node.marks);
    if level < digits.len() {
        let child = Who::Child(digits[level]);
        return push_by_form(&path_node.push, transaction, state, &child, &env);
    }
    let key = path_node.group.of(&passage.packet.flow);
    let grouped = Who::Flow(key);
    push_by_form(&path_node.push, transaction, state, &grouped, &env)
}

/// Runs the push step at a level of the path. Returns the packet's rank there. If the marks alone
/// determine the rank, as in most nodes, nothing is looked up for it. Nodes that tell flows apart
/// otherwise are rare, so their steps stay out of the way of the others.
#[inline(always)]
fn push_at(states: &mut [NodeState], passage: &PacketPath, digits: &[u32], level: usize) -> u64
    requires there { IsAtLevel passage.now digits.now level states.old }
    ensures rank { ForValues passage.now states.old (λ v. result ≡
        rank_at v (stop passage.now level)) }
    ensures values { ValuesBecome passage.now states.old states.new
        (after_pushes (stop passage.now level ∷ [])) }
    ensures kept { AreNodeStates (tree_for passage.now) states.new }
    ensures room { KeepsRoom passage.now states.old states.new }
    ensures limit { result ≤ max_rank }
{
    let path_node = &passage.path_nodes[level];
    if let Some(rank) = path_node.told {
        return rank;
    }
    let (Form::Fair(_), FlowGroup::FiveTuple) = (&path_node.push, path_node.group) else {
        return push_lines(states, passage, digits, level);
    };
    let transaction = path_node.transaction;
    let state = &mut states[path_node.node as usize];
    let env = passage.env(&path_node.marks);
    if level < digits.len() {
        let child = Who::Child(digits[level]);
        return push_by_form(&path_node.push, transaction, state, &child, &env);
    }
    let flow = Who::Flow(passage.packet.flow);
    push_by_form(&path_node.push, transaction, state, &flow, &env)
}

/// Runs any pop step at a level of the path, for a packet taken with a rank. A call of its own keeps
/// the steps that have no lines, or only store the rank, short.
#[inline(never)]
fn pop_lines(
    states: &mut [NodeState],
    passage: &PacketPath,
    digits: &[u32],
    level: usize,
    rank: u64,
)
    requires there { IsAtLevel passage.now digits.now level states.old }
    requires limit { rank ≤ max_rank }
    ensures values { ValuesBecome passage.now states.old states.new
        (after_pops (stop passage.now level ∷ []) (rank ∷ [])) }
    ensures kept { AreNodeStates (tree_for passage.now) states.new }
    ensures room { KeepsRoom passage.now states.old states.new }
{
    let path_node = &passage.path_nodes[level];
    let transaction = path_node.transaction;
    let state = &mut states[path_node.node as usize];
    let env = passage.env(&path_node.marks);
    if level < digits.len() {
        let child = Who::Child(digits[level]);
        return pop_by_form(&path_node.pop, transaction, state, &child, rank, &env);
    }
    let key = path_node.group.of(&passage.packet.flow);
    let grouped = Who::Flow(key);
    pop_by_form(&path_node.pop, transaction, state, &grouped, rank, &env);
}

/// Runs the pop step at a level of the path, for a packet taken with a rank. If the node has no
/// lines, as most have none, nothing is looked up for it. A step that stores the rank is shorter
/// than a call.
#[inline(always)]
fn pop_at(states: &mut [NodeState], passage: &PacketPath, digits: &[u32], level: usize, rank: u64)
    requires there { IsAtLevel passage.now digits.now level states.old }
    requires limit { rank ≤ max_rank }
    ensures values { ValuesBecome passage.now states.old states.new
        (after_pops (stop passage.now level ∷ []) (rank ∷ [])) }
    ensures kept { AreNodeStates (tree_for passage.now) states.new }
    ensures room { KeepsRoom passage.now states.old states.new }
{
    let path_node = &passage.path_nodes[level];
    if let Form::Empty = path_node.pop {
        return;
    }
    let (Form::Kept(_), FlowGroup::FiveTuple) = (&path_node.pop, path_node.group) else {
        return pop_lines(states, passage, digits, level, rank);
    };
    let transaction = path_node.transaction;
    let state = &mut states[path_node.node as usize];
    let env = passage.env(&path_node.marks);
    if level < digits.len() {
        let child = Who::Child(digits[level]);
        return pop_by_form(&path_node.pop, transaction, state, &child, rank, &env);
    }
    let flow = Who::Flow(passage.packet.flow);
    pop_by_form(&path_node.pop, transaction, state, &flow, rank, &env);
}
