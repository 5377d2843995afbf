//! Laws about maps: as lists of images, and composed.
ghost use Rattle.embed_defs.specs.MapLaws.{EmbeddingsCompose, TreesOfImagesEmbed, TreesOfImagesAreOne, TreesInPreorderHoldTheImages};

/// The composition of two embeddings is an embedding.
pub fn embeddings_compose()
    ensures law { EmbeddingsCompose }
{}

/// The tree that holds the images of an embedding is an embedding.
pub fn trees_of_images_embed()
    ensures law { TreesOfImagesEmbed }
{}

/// Exactly one tree holds the images of a map.
pub fn trees_of_images_are_one()
    ensures law { TreesOfImagesAreOne }
{}

/// The tree made from a list in preorder holds the images of the list.
pub fn trees_in_preorder_hold_the_images()
    ensures law { TreesInPreorderHoldTheImages }
{}
