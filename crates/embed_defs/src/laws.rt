//! Laws about embeddings and needs.
ghost use Rattle.embed_defs.specs.Laws.{TopologiesHaveOneNeed, NeedsAreLeastHeights, EmbeddingsNeedRoom, CanonicalPlacementsAreEmbeddings, CanonicalPlacementsAreOne, PlacementsAreThereOrNone};

/// A topology has one need.
pub fn topologies_have_one_need()
    ensures law { TopologiesHaveOneNeed }
{}

/// The need of a topology is the least height of a complete tree in which there is an embedding.
pub fn needs_are_least_heights()
    ensures law { NeedsAreLeastHeights }
{}

/// An embedding exists exactly if there is room for the needs.
pub fn embeddings_need_room()
    ensures law { EmbeddingsNeedRoom }
{}

/// If there is room, the canonical placement is an embedding.
pub fn canonical_placements_are_embeddings()
    ensures law { CanonicalPlacementsAreEmbeddings }
{}

/// There is one canonical placement.
pub fn canonical_placements_are_one()
    ensures law { CanonicalPlacementsAreOne }
{}

/// Either the canonical placement is an embedding, or there is no embedding.
pub fn placements_are_there_or_none()
    ensures law { PlacementsAreThereOrNone }
{}
