//! How large the queues of a target get in a run, node by node. Begin with specs/Sizes.antt.
#![tactic(auto)]

mod hop;
mod json;
mod laws;
mod limits;
mod memory;
mod names;
mod node;
mod numbers;
mod places;
mod queues;
mod recorder;
mod results;
mod size;
mod sizing;
mod stores;
mod text;

pub use json::put_json;
pub use laws::{sizes_are_determined, sizes_are_of_the_run};
pub use limits::{Limit, Limits, Overflow};
pub use memory::Widths;
pub use numbers::bits_for;
pub use size::{NodeSize, Sizes, StoreUse};
pub use sizing::Sizing;
pub use text::put_text;
