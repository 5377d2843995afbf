//! Numbered nodes, each with the list of its children: descendants, depths, and the tree below a
//! root. Begin with specs/Descent.antt.
#![tactic(auto)]

mod depths;
mod descendants;
mod growth;
mod kinship;
mod laws;
mod place;
mod preorder;

pub use depths::{depth, first_deep};
pub use descendants::{below, first_on_cycle};
pub use kinship::parents;
pub use laws::{
    graphs_have_one_tree, nodes_are_reached, nodes_have_one_depth, trees_have_all_nodes,
    trees_have_each_node_once,
};
pub use preorder::Preorder;
