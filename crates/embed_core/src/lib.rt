//! Embeds source trees in complete trees of queues along the canonical map or a given one, and
//! lifts and picks ranks along the map. Begin with specs/Picks.antt.
#![tactic(auto)]

mod block;
mod lifted_path;
mod map;
mod needs;
mod order;
mod way;

pub use lifted_path::{LeafTable, LiftedPath};
pub use map::{EmbedFault, Map, embed, least_height, lift, pick};
pub use target_core::{Target, TargetFault, read_target};
pub use way::Way;
