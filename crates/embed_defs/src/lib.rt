//! Definitions of targets, and of how a topology is embedded in one. A target is a complete tree with
//! an arity for each level, with further levels above it and a queue at each node. Embeddings, needs,
//! the canonical placement, the composition of maps, and the lift of a source tree along a map. Begin
//! with specs/Target.antt and specs/Embedding.antt.
#![tactic(auto)]

mod laws;
mod lift_laws;
mod map_laws;
mod target_laws;

pub use laws::{
    canonical_placements_are_embeddings, canonical_placements_are_one, embeddings_need_room,
    needs_are_least_heights, placements_are_there_or_none, topologies_have_one_need,
};
pub use lift_laws::{
    canonical_maps_are_good, embeddings_are_good_maps, empty_trees_have_empty_lifts,
    lift_of_is_the_lift, lifted_ranks_are_of_the_deepest, lifts_are_one, maps_stay,
    nodes_have_images_of_their_own, picked_ranks_are_those_at_the_images,
    picked_ranks_are_those_lifted, pops_of_lifts_are_lifted_pops, pushes_of_lifts_are_lifts,
    spills_of_lifts,
};
pub use map_laws::{
    embeddings_compose, trees_in_preorder_hold_the_images, trees_of_images_are_one,
    trees_of_images_embed,
};
pub use target_laws::{
    all_levels_are_the_target, heights_are_in_range, heights_give_the_lowest_levels,
};
