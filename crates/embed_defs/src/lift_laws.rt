//! Laws about the lift.
ghost use Rattle.embed_defs.specs.LiftLaws.{LiftsAreOne, EmptyTreesHaveEmptyLifts, PushesOfLiftsAreLifts, PopsOfLiftsAreLiftedPops, MapsStay, NodesHaveImagesOfTheirOwn, PickedRanksAreThoseLifted, LiftedRanksAreOfTheDeepest, PickedRanksAreThoseAtTheImages, CanonicalMapsAreGood, LiftOfIsTheLift, SpillsOfLifts, EmbeddingsAreGoodMaps};

/// A source tree has exactly one lift.
pub fn lifts_are_one()
    ensures law { LiftsAreOne }
{}

/// `lift_of` gives the lift.
pub fn lift_of_is_the_lift()
    ensures law { LiftOfIsTheLift }
{}

/// The lift of a tree of empty queues is empty, and an empty family is its lift.
pub fn empty_trees_have_empty_lifts()
    ensures law { EmptyTreesHaveEmptyLifts }
{}

/// A push along a leaf's image with the lifted ranks gives the lift of the tree after the push.
pub fn pushes_of_lifts_are_lifts()
    ensures law { PushesOfLiftsAreLifts }
{}

/// A pop of the lift is the lifted pop of the tree.
pub fn pops_of_lifts_are_lifted_pops()
    ensures law { PopsOfLiftsAreLiftedPops }
{}

/// A push spills at the same number of nodes in each lift of a tree.
pub fn spills_of_lifts()
    ensures law { SpillsOfLifts }
{}

/// A map of a tree is also a map of the tree after a push or a pop.
pub fn maps_stay()
    ensures law { MapsStay }
{}

/// No two nodes have the same image.
pub fn nodes_have_images_of_their_own()
    ensures law { NodesHaveImagesOfTheirOwn }
{}

/// The ranks on a path can be read back from the lifted ranks.
pub fn picked_ranks_are_those_lifted()
    ensures law { PickedRanksAreThoseLifted }
{}

/// The lifted rank at each depth is that of the deepest node on the path whose image is at most
/// that deep.
pub fn lifted_ranks_are_of_the_deepest()
    ensures law { LiftedRanksAreOfTheDeepest }
{}

/// The picked rank of each node on the path is the rank at its image's depth.
pub fn picked_ranks_are_those_at_the_images()
    ensures law { PickedRanksAreThoseAtTheImages }
{}

/// The images of the canonical placement are a good map.
pub fn canonical_maps_are_good()
    ensures law { CanonicalMapsAreGood }
{}

/// The images of an embedding are a good map.
pub fn embeddings_are_good_maps()
    ensures law { EmbeddingsAreGoodMaps }
{}
