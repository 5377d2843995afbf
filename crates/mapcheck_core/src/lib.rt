//! Reads a given topology and a map into it from texts, checks whether the map is an embedding, and
//! composes it with a placement in a target. Begin with specs/GivenMaps.antt and
//! specs/Composition.antt.
#![tactic(auto)]

mod check;
mod composition;
mod entry;
mod fault;
mod given;
mod law;
mod map_text;
mod nest;
mod nodes;
mod places;
mod tree_fault;
mod tree_text;

pub use check::check_map;
pub use composition::compose;
pub use fault::MapFault;
pub use given::Given;
pub use law::classic_maps_have_each_name;
pub use map_text::{MOST_MAP_BYTES, read_map};
pub use tree_fault::TreeFault;
pub use tree_text::{MOST_TREE_BYTES, read_tree};
