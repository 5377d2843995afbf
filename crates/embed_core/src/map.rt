//! Maps of a topology into a complete tree: the canonical one, or a given one.
ghost use Rattle.std.specs.Prelude.{◌≡◌, ◌+◌, ◌≤◌, ◌++◌, length, replicate, drop, IfOk, OnOk, MatchOption, Some, None, Err};
ghost use Rattle.tree_defs.specs.Tree.{nodes, depth as levels, root_of, trees_of, LeadsToLeaf, SameShape, most_nodes};
ghost use Rattle.tree_defs.specs.Topology.{IsBranched, complete};
ghost use Rattle.tree_core.specs.Shape.{topology};
ghost use Rattle.tree_core.specs.TreeContents.{branch};
ghost use Rattle.embed_defs.specs.Target.{IsInRange, lowest};
ghost use Rattle.embed_defs.specs.Embedding.{IsEmbedding, HasEmbedding};
ghost use Rattle.embed_defs.specs.Need.{IsLeast, IsNeed, HoldsNeeds, HasHeight};
ghost use Rattle.embed_defs.specs.Canonical.{canonical, IsCanonical};
ghost use Rattle.embed_defs.specs.Images.{image_at, image_map};
ghost use Rattle.embed_defs.specs.Preorder.{image_in, tree_in, HoldsImages};
ghost use Rattle.embed_defs.specs.Lift.{lift_ranks, picked_ranks};
ghost use Rattle.embed_defs.specs.GoodMaps.{IsGoodMap, IsDeep, IsNested};
ghost use Rattle.embed_core.specs.Range.{levels_of, FitsInLevels};
ghost use Rattle.embed_core.specs.Picks.{IsLeafImage, PicksOnto};
ghost use Rattle.embed_core.specs.LiftedPaths.{image_depths};

use crate::block::block_start;
use crate::needs::Needs;
use crate::order::{child_to, image_order};
use crate::way::Way;
use list_core::List;
use std::alloc::{AllocError, Global};
use std::marker::Model;
use target_core::Target;
use tree_core::{Taken, Topo};

/// The image of each node of a topology, and at each node the indices of its children in the order
/// of their images.
#[derive(Drop)]
pub struct Map {
    image: Vec<u32>,
    children: Vec<Map>,
    order: Vec<u32>,
}

impl Model for Map {
    ghost use Rattle.std.specs.Coded.{coded_ℕ, coded_list};
    ghost use Rattle.std.specs.Prelude.{◌≤◌, length};
    ghost use Rattle.std.proofs.Common.{arith};
    ghost use Rattle.tree_defs.specs.Tree.{Tree, Address, trees_of, nodes, most_nodes};
    ghost use Rattle.tree_defs.specs.Codes.{tree_code};
    ghost use Rattle.tree_core.specs.TreeContents.{branch};
    ghost use Rattle.embed_core.specs.Shrinking.{most_le-nodes};
    ghost use Rattle.embed_core.specs.ImageOrder.{IsImageOrder};

    ghost Value = { Tree Address };

    ghost coded = { tree_code (coded_list coded_ℕ) };

    ghost view = { λ a. branch a.image.items (trees_of a.children.items) };

    ghost invariant = { λ a. (length a.children.items ≤ most_nodes) × IsImageOrder a.children.items a.order.items };

    ghost size = { nodes };

    ghost size_decreases = { λ a h. omega (arith, most_le-nodes a.image.items a.children.items) };
}

/// Says why a topology has no map into a target.
#[derive(Debug, Drop)]
pub enum EmbedFault {
    /// The target has no room for the topology, or the topology is a single leaf and the target
    /// isn't.
    NoEmbedding,
    NoMemory,
}

impl From<AllocError> for EmbedFault {
    ghost use Rattle.std.specs.Prelude.{◌≡◌};
    ghost use Rattle.embed_core.specs.declared.map.EmbedFault.{EmbedFault};

    ghost from_gives = { λ _ e. e ≡ EmbedFault.NoMemory };

    fn from(_error: AllocError) -> EmbedFault {
        EmbedFault::NoMemory
    }
}

impl Map {
    /// Makes the map of a topology from its images, one for each node in preorder.
    pub fn of(
        alloc: Global,
        topo: &Topo,
        target: &Target,
        images: &List<List<u32>>,
    ) -> Result<Map, AllocError>
        requires branched { IsBranched (topology topo.now) }
        requires few { nodes (topology topo.now) ≤ most_nodes }
        requires images { length images.now ≡ nodes (topology topo.now) }
        requires embedding { IsEmbedding (topology topo.now) (complete target.now.arities)
            (image_in (topology topo.now) images.now) }
        ensures images { IfOk result (HoldsImages (topology topo.now)
            (image_in (topology topo.now) images.now)) }
        ensures shape { IfOk result (λ map. SameShape (topology topo.now) map) }
        ensures good { IfOk result (λ map. IsGoodMap (length target.now.arities) map) }
        ensures embedding { IfOk result (λ map.
            IsEmbedding (topology topo.now) (complete target.now.arities) (image_map map)) }
    {
        let (map, _left) = Map::first_of(alloc, topo, images.as_slice())?;
        Ok(map)
    }

    /// Makes the map of a topology from the first of these images, and returns the remaining images
    /// with it.
    fn first_of<'a>(
        alloc: Global,
        topo: &Topo,
        images: &'a [List<u32>],
    ) -> Result<(Map, &'a [List<u32>]), AllocError>
        requires branched { IsBranched (topology topo.now) }
        requires few { nodes (topology topo.now) ≤ most_nodes }
        requires images { nodes (topology topo.now) ≤ length images.now }
        ensures map { IfOk result (λ first. first.0 ≡ tree_in (topology topo.now) images.now) }
        ensures left { IfOk result (λ first. first.1.now ≡ drop (nodes (topology topo.now))
            images.now) }
    {
        let image = images[0].as_slice().to_vec(alloc)?;
        let mut left = &images[1..];
        let mut children = Vec::new(alloc);
        match topo {
            Topo::Leaf => Ok((Map::node(alloc, image, children)?, left)),
            Topo::Inner(inner) => {
                for child in inner {
                    let (below, behind) = Map::first_of(alloc, child, left)?;
                    children.push(below)?;
                    left = behind;
                }
                Ok((Map::node(alloc, image, children)?, left))
            }
        }
    }

    /// Makes a node with this image and these children.
    fn node(alloc: Global, image: Vec<u32>, children: Vec<Map>) -> Result<Map, AllocError>
        requires few { length children.items ≤ most_nodes }
        ensures node { IfOk result (λ map. map ≡ branch image.items (trees_of children.items)) }
    {
        let order = image_order(alloc, &children)?;
        Ok(Map {
            image,
            children,
            order,
        })
    }

    /// Returns the image of the node at an address.
    pub fn image(&self, address: &[u32]) -> Option<&[u32]>
        ensures image { MatchOption result (image_at self.now address.now ≡ None)
            (λ image. image_at self.now address.now ≡ Some image.now) }
    {
        match address {
            [] => Some(&self.image),
            [child, deeper @ ..] => match self.children.get(*child as usize) {
                Some(below) => below.image(deeper),
                None => None,
            },
        }
    }

    /// Returns the number of digits of the root's image.
    fn depth(&self) -> usize
        ensures depth { result ≡ length (root_of self.now) }
    {
        self.image.len()
    }

    /// Returns the root's image.
    pub(crate) fn root(&self) -> &[u32]
        ensures root { result.now ≡ root_of self.now }
    {
        &self.image
    }

    /// Returns the depth of the image of each node on the path to a leaf. The error means out of
    /// memory.
    pub(crate) fn depths(&self, alloc: Global, address: &[u32]) -> Result<Vec<u64>, AllocError>
        requires leaf { LeadsToLeaf self.now address.now }
        ensures depths { IfOk result (λ v. v.items ≡ image_depths self.now address.now) }
    {
        let mut depths = Vec::new(alloc);
        self.depths_from(0, address, &mut depths)?;
        Ok(depths)
    }

    /// Appends the depth of the image of each node on the path to a leaf. The path is followed from
    /// one of its steps on.
    fn depths_from(
        &self,
        step: usize,
        address: &[u32],
        depths: &mut Vec<u64>,
    ) -> Result<(), AllocError>
        requires leaf { LeadsToLeaf self.now (drop step address.now) }
        requires within { step ≤ length address.now }
        ensures depths { OnOk result (depths.new.items ≡ depths.old.items ++
            image_depths self.now (drop step address.now)) }
    {
        depths.push(self.depth() as u64)?;
        if step < address.len() {
            let child = &self.children[address[step] as usize];
            child.depths_from(step + 1, address, depths)?;
        }
        Ok(())
    }

    /// Writes the image of the leaf at the end of a path to `digits`, and the lifted ranks to
    /// `ranks`. The path is followed from one of its steps on, and the ranks start at the root's
    /// image.
    fn lift_from<W: Way>(&self, step: usize, way: &W, digits: &mut [u32], ranks: &mut [u64])
        requires leaf { LeadsToLeaf self.now (drop step (W.digits way.now)) }
        requires deep { IsDeep (length digits.old) self.now }
        requires whole { length (W.ranks way.now) ≡ length (W.digits way.now) + 1 }
        requires within { step ≤ length (W.digits way.now) }
        requires ranks { length ranks.old + length (root_of self.now) ≡ length digits.old + 1 }
        ensures digits { digits.new ≡ image_map self.now (drop step (W.digits way.now)) }
        ensures ranks { ranks.new ≡ lift_ranks self.now (drop step (W.digits way.now))
            (drop step (W.ranks way.now)) }
    {
        let rank = way.rank(step);
        if step < way.steps() {
            let child = &self.children[way.digit(step) as usize];
            let part = child.depth() - self.depth();
            fill_front(ranks, part, rank);
            child.lift_from(step + 1, way, digits, &mut ranks[part..]);
        } else {
            digits.copy_from_slice(&self.image);
            ranks[0] = rank;
        }
    }

    /// Appends the path to the leaf with an image, and for each node on it, the rank at its image's
    /// depth.
    fn pick_onto(&self, digits: &[u32], ranks: &[u64], taken: &mut Taken)
        requires deep { IsDeep (length digits.now) self.now }
        requires nested { IsNested self.now }
        requires leaf { IsLeafImage self.now digits.now }
        requires ranks { length ranks.now ≡ length digits.now + 1 }
        requires room { length taken.old.digits + levels self.now ≤ taken.old.room }
        requires even { length taken.old.ranks ≡ length taken.old.digits }
        ensures picks { PicksOnto self.now digits.now ranks.now taken.old taken.new }
    {
        let rank = ranks[self.depth()];
        if self.children.is_empty() {
            taken.last(rank);
        } else {
            let index = child_to(&self.children, &self.order, self.depth(), digits);
            taken.step(index, rank);
            self.children[index as usize].pick_onto(digits, ranks, taken);
        }
    }

    /// Makes the map of the subtree below a node with this height and this image.
    fn place(
        alloc: Global,
        needs: &Needs,
        target: &Target,
        height: usize,
        image: Vec<u32>,
    ) -> Result<Map, AllocError>
        requires needs { HoldsNeeds (levels_of target.now) needs.now }
        requires room { HasHeight height needs.now }
        requires range { IsInRange target.now.arities target.now.above }
        requires few { nodes needs.now ≤ most_nodes }
        ensures canonical { IfOk result (λ map. map ≡ canonical (levels_of target.now) height
            image.items needs.now) }
    {
        let siblings = needs.children();
        let mut children = Vec::new(alloc);
        for (index, child) in siblings.iter().enumerate() {
            let need = child.need();
            let start = block_start(alloc, siblings, (index, need), height, target)?;
            let mut below = image.to_vec(alloc)?;
            below.extend_from_slice(&start[..height - need as usize])?;
            children.push(Map::place(alloc, child, target, need as usize, below)?)?;
        }
        Map::node(alloc, image, children)
    }
}

fn fill_front(ranks: &mut [u64], count: usize, rank: u64)
    requires count { count ≤ length ranks.old }
    ensures filled { ranks.new ≡ replicate count rank ++ drop count ranks.old }
{
    ranks[..count].fill(rank);
}

/// Writes the image of the leaf at the end of a path to `digits`, and the rank at each depth to
/// `ranks`. This is the rank of the deepest node on the path whose image is at most that deep.
pub fn lift<W: Way>(map: &Map, way: &W, digits: &mut [u32], ranks: &mut [u64])
    requires leaf { LeadsToLeaf map.now (W.digits way.now) }
    requires whole { length (W.ranks way.now) ≡ length (W.digits way.now) + 1 }
    requires good { IsGoodMap (length digits.old) map.now }
    requires ranks { length ranks.old ≡ length digits.old + 1 }
    ensures digits { digits.new ≡ image_map map.now (W.digits way.now) }
    ensures ranks { ranks.new ≡ lift_ranks map.now (W.digits way.now) (W.ranks way.now) }
{
    map.lift_from(0, way, digits, ranks);
}

/// Writes the address of the leaf with an image to `taken`, and for each node on the path to it,
/// the rank at its image's depth.
#[inline(never)]
pub fn pick(map: &Map, digits: &[u32], ranks: &[u64], taken: &mut Taken)
    requires good { IsGoodMap (length digits.now) map.now }
    requires leaf { IsLeafImage map.now digits.now }
    requires ranks { length ranks.now ≡ length digits.now + 1 }
    requires room { levels map.now ≤ taken.old.room }
    ensures leaf { LeadsToLeaf map.now taken.new.digits }
    ensures image { image_map map.now taken.new.digits ≡ digits.now }
    ensures ranks { taken.new.ranks ≡ picked_ranks map.now taken.new.digits ranks.now }
    ensures room { taken.new.room ≡ taken.old.room }
{
    taken.clear();
    map.pick_onto(digits, ranks, taken);
}

/// Computes the canonical map of a topology into a target's complete tree.
pub fn embed(alloc: Global, topo: &Topo, target: &Target) -> Result<Map, EmbedFault>
    requires branched { IsBranched (topology topo.now) }
    requires few { nodes (topology topo.now) ≤ most_nodes }
    requires range { IsInRange target.now.arities target.now.above }
    ensures canonical { IfOk result (λ map. IsCanonical (levels_of target.now)
        (length target.now.arities) (topology topo.now) map) }
    ensures shape { IfOk result (λ map. SameShape (topology topo.now) map) }
    ensures good { IfOk result (λ map. IsGoodMap (length target.now.arities) map) }
    ensures embedding { IfOk result (λ map. IsEmbedding (topology topo.now)
        (complete target.now.arities) (image_map map)) }
    ensures none { result ≡ Err EmbedFault.NoEmbedding → HasEmbedding (topology topo.now)
        (complete target.now.arities) → ⊥ }
{
    let needs = Needs::of(alloc, topo, target)?;
    let height = target.height();
    if !needs.fit(height) {
        return Err(EmbedFault::NoEmbedding);
    }
    Ok(Map::place(alloc, &needs, target, height, Vec::new(alloc))?)
}

/// Computes the least height of a complete tree in which the topology can be embedded. The tree has
/// the target's lowest levels, with further levels above them if necessary.
pub fn least_height(alloc: Global, topo: &Topo, target: &Target) -> Result<u32, AllocError>
    requires branched { IsBranched (topology topo.now) }
    requires few { nodes (topology topo.now) ≤ most_nodes }
    requires range { IsInRange target.now.arities target.now.above }
    ensures need { IfOk result (λ height. IsNeed (levels_of target.now) (topology topo.now)
        height) }
    ensures least { IfOk result (λ height. IsLeast (FitsInLevels target.now (topology topo.now))
        height) }
{
    let needs = Needs::of(alloc, topo, target)?;
    Ok(needs.need())
}
