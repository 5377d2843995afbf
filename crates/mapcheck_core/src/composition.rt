//! The composition of a given map with a placement.
ghost use Rattle.std.specs.Prelude.{◌≡◌, length, map, IfOk};
ghost use Rattle.std.specs.List.{All};
ghost use Rattle.tree_defs.specs.Tree.{IsAddressOf, SameShape};
ghost use Rattle.tree_defs.specs.Topology.{topology_of, complete};
ghost use Rattle.tree_core.specs.Shape.{topology};
ghost use Rattle.embed_defs.specs.Embedding.{IsEmbedding};
ghost use Rattle.embed_defs.specs.Images.{image_map};
ghost use Rattle.embed_defs.specs.GoodMaps.{IsGoodMap};
ghost use Rattle.mapcheck_core.specs.GivenMaps.{IsWithinLimits, IsGivenFor, image_of};
ghost use Rattle.mapcheck_core.specs.Composition.{IsComposed};

use crate::given::Given;
use embed_core::{Map, Target};
use list_core::List;
use std::alloc::{AllocError, Global};
use tree_core::Topo;

/// Returns the images of these addresses under a placement.
fn placed_images(
    alloc: Global,
    images: &[List<u32>],
    placement: &Map,
) -> Result<List<List<u32>>, AllocError>
    requires addresses { All (IsAddressOf placement.now) images.now }
    ensures images { IfOk result (λ placed. placed ≡ map (image_map placement.now) images.now) }
{
    let mut placed = List::from_vec(Vec::new(alloc));
    for image in images {
        let Some(behind) = placement.image(image.as_slice()) else {
            unreachable!()
        };
        placed.push(List::from_vec(behind.to_vec(alloc)?))?;
    }
    Ok(placed)
}

/// Composes a given map with a placement, into the map of a topology into a target. The given map
/// goes into the placement's topology; each of its images is mapped through the placement.
pub fn compose(
    alloc: Global,
    topo: &Topo,
    given: &Given,
    placement: &Map,
    target: &Target,
) -> Result<Map, AllocError>
    requires topo { IsWithinLimits (topology topo.now) }
    requires given { IsGivenFor (topology topo.now) given.now }
    requires embedding { IsEmbedding (topology topo.now) (topology_of placement.now)
        (image_of (topology topo.now) given.now) }
    requires placement { IsEmbedding (topology_of placement.now) (complete target.now.arities)
        (image_map placement.now) }
    ensures composed { IfOk result (λ map.
        IsComposed (topology topo.now) (image_of (topology topo.now) given.now) placement.now map) }
    ensures shape { IfOk result (λ map. SameShape (topology topo.now) map) }
    ensures embedding { IfOk result (λ map.
        IsEmbedding (topology topo.now) (complete target.now.arities) (image_map map)) }
    ensures good { IfOk result (λ map. IsGoodMap (length target.now.arities) map) }
{
    let images = placed_images(alloc, given.images.as_slice(), placement)?;
    Map::of(alloc, topo, target, &images)
}
