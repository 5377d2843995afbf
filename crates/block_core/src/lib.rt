//! The second form of the hardware's queues. Each node has a rank store for each flow, a scheduler
//! over the heads of the flows, and a queue of the entries that spilled. Begin with src/block.rt
//! and specs/Block.antt.
#![tactic(auto)]

mod block;
mod fabric;
mod waiting;

pub use block::BlockPifo;
pub use fabric::BlockFabric;
