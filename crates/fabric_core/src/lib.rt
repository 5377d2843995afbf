//! The hardware's tree of queues: a complete tree, pushed and popped by address. Begin with
//! src/fabric.rt and specs/Array.antt.
#![tactic(auto)]

mod fabric;
mod flat;
mod node;
mod shape;
mod walk;

pub use fabric::Fabric;
pub use flat::FlatFabric;
pub use node::NodeQueue;
pub use shape::Shape;
pub use walk::{empty_queues, pop_along, push_along, reserve_along};
