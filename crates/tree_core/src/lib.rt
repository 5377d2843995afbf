//! Trees of push-in first-out queues that are updated in place. Begin with specs/TreeContents.antt.
#![tactic(auto)]

mod path;
mod taken;
mod topo;
mod tree;

pub use path::Path;
pub use taken::Taken;
pub use topo::{Topo, depth};
pub use tree::SourceTree;
