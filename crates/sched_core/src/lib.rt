//! Packet schedulers driven by a policy, over queues that another component owns: the variables of
//! the policy's nodes, the push and pop steps along a packet's path, and the queued packets by
//! number (src/held.rt). Begin with src/scheduler.rt and specs/Standing.antt.
#![tactic(auto)]

mod chunk;
mod direct;
mod first;
mod held;
mod node_states;
mod node_totals;
mod path_node;
mod policy_state;
mod scheduler;
mod totals;

pub use direct::Direct;
pub use node_states::NodeStates;
pub use policy_state::PolicyState;
pub use scheduler::{Arrival, Scheduler};
