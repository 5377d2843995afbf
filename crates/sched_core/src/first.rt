//! The variables of the nodes at the start.
ghost use Rattle.std.specs.Prelude.{◌≡◌, ◌<◌, IfOk};
ghost use Rattle.tree_defs.specs.Tree.{IsAddressOf, root_of, nodes};
ghost use Rattle.tree_core.specs.Shape.{topology};
ghost use Rattle.rank_defs.specs.States.{first_state};
ghost use Rattle.rank_core.specs.Node.{HasState};
ghost use Rattle.sched_defs.specs.SourceState.{first_states};
ghost use Rattle.sched_core.specs.Kept.{part_at, arity, IsNodeStateOf, AreNodeStates, HaveValues, numbered_part};

use policy_core::Policy;
use rank_core::NodeState;
use std::alloc::{AllocError, Global};
use tree_core::Topo;

/// Returns how many children the node at an address has, or `None` at a leaf.
fn arity(topo: &Topo, address: &[u32]) -> Option<usize>
    requires there { IsAddressOf (topology topo.now) address.now }
    ensures { result ≡ arity (part_at (topology topo.now) address.now) }
{
    match topo {
        Topo::Leaf => None,
        Topo::Inner(children) => match address {
            [] => Some(children.len()),
            [digit, deeper @ ..] => arity(&children[*digit as usize], deeper),
        },
    }
}

fn first_state(alloc: Global, policy: &Policy, node: u32) -> Result<NodeState, AllocError>
    requires there { node < nodes policy.now.policy.tree }
    ensures node_state { IfOk result (IsNodeStateOf (numbered_part policy.now.policy.tree node)) }
    ensures first { IfOk result (λ x. HasState x (first_state
        (root_of (numbered_part policy.now.policy.tree node)).program)) }
{
    let transaction = policy.checked(node).transaction();
    match arity(policy.topo(), policy.address(node)) {
        Some(children) => NodeState::inner(alloc, transaction, children as u32),
        None => NodeState::leaf(alloc, transaction),
    }
}

/// Returns the initial variables of all nodes, by node number. The error means out of memory.
pub fn first_states(alloc: Global, policy: &Policy) -> Result<Vec<NodeState>, AllocError>
    ensures kept { IfOk result (λ states. AreNodeStates policy.now.policy.tree states.items) }
    ensures values { IfOk result (λ states. HaveValues policy.now.policy.tree states.items
        (first_states policy.now.policy.tree)) }
{
    let count = policy.count();
    let mut states = Vec::with_capacity(alloc, count as usize)?;
    for node in 0..count {
        states.push(first_state(alloc, policy, node)?)?;
    }
    Ok(states)
}
