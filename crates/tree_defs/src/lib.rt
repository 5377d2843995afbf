//! Queues, topologies and source trees: definitions of push-in first-out queues, of trees of them, and
//! of pushes and pops along their paths. Begin with specs/Queue.antt and specs/SourceTree.antt.
#![tactic(auto)]

mod packets;
mod queues;
mod topologies;
mod well_formed;

pub use packets::{
    empty_trees_hold_nothing, pops_lead_to_leaves, pops_take_at_the_leaf, pops_take_one,
    pops_take_the_packet, pushes_add_one, pushes_add_the_packet, pushes_put_at_the_leaf,
};
pub use queues::{earliest_of_the_least_leaves, nothing_leaves_an_empty_queue};
pub use topologies::{
    complete_trees_have_all_addresses, complete_trees_have_deep_leaves,
    leaf_addresses_lead_to_leaves, one_shape_is_one_topology, pops_keep_the_topology,
    prefixes_come_before, pushes_keep_the_topology,
};
pub use well_formed::{
    empty_trees_are_well_formed, nothing_is_popped_from_an_empty_root, pops_keep_well_formed,
    pushes_keep_well_formed, roots_have_an_entry_for_each_packet, well_formed_at_each_inner_node,
};
