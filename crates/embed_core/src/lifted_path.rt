//! Paths to leaves, lifted into a target in advance, and a table to find them by their images.
ghost use Rattle.std.specs.Prelude.{◌≡◌, ◌+◌, ◌<◌, ◌≤◌, ℕ, length, map, slice_get, slice_index, IfOk, IfSome, Some};
ghost use Rattle.std.specs.List.{AllByRecursion};
ghost use Rattle.tree_defs.specs.Tree.{LeadsToLeaf, depth as levels};
ghost use Rattle.embed_defs.specs.Lift.{picked_ranks};
ghost use Rattle.embed_defs.specs.GoodMaps.{IsGoodMap};
ghost use Rattle.embed_core.specs.Picks.{IsLeafImage, LeadsToImage};
ghost use Rattle.embed_core.specs.LiftedPaths.{IsLiftedPathTo, AreLeafPaths};

use crate::map::{Map, lift, pick};
use crate::way::Way;
use std::alloc::{AllocError, Global};
use tree_core::Taken;

/// The image of a leaf, and for each rank that a lift has along it, the step of the path whose rank
/// it is. For the way back, also the leaf's address, and for each node on the path, the depth of its
/// image.
#[derive(Drop)]
pub struct LiftedPath {
    pub image: Vec<u32>,
    steps: Vec<u64>,
    address: Vec<u32>,
    depths: Vec<u64>,
}

impl LiftedPath {
    /// Makes the lifted path to the leaf at an address, in a target of this height. The error means
    /// out of memory.
    pub fn to(
        alloc: Global,
        map: &Map,
        address: &[u32],
        height: usize,
    ) -> Result<LiftedPath, AllocError>
        requires leaf { LeadsToLeaf map.now address.now }
        requires good { IsGoodMap height map.now }
        ensures lifted { IfOk result (IsLiftedPathTo map.now address.now) }
    {
        let mut image = vec![in alloc; 0; height]?;
        let mut steps = vec![in alloc; 0; height + 1]?;
        lift(map, &Steps { address }, &mut image, &mut steps);
        let depths = map.depths(alloc, address)?;
        Ok(LiftedPath {
            image,
            steps,
            address: address.to_vec(alloc)?,
            depths,
        })
    }

    /// Writes the lift of the ranks on the path to the leaf to `lifted`.
    #[inline(always)]
    pub fn lift(&self, ranks: &[u64], lifted: &mut [u64])
        requires within { AllByRecursion (λ step. step < length ranks.now) self.now.steps.items }
        requires long { length lifted.old ≡ length self.now.steps.items }
        ensures lifted { lifted.new ≡ map (slice_index ranks.now) self.now.steps.items }
    {
        let steps = self.steps.as_slice();
        for place in 0..lifted.len() {
            lifted[place] = ranks[steps[place] as usize];
        }
    }
}

/// The path to a leaf, with each step's number as its rank.
#[derive(Drop)]
struct Steps<'a> {
    address: &'a [u32],
}

impl<'a> Way for Steps<'a> {
    ghost use Rattle.std.specs.Prelude.{◌+◌, length};
    ghost use Rattle.std.specs.List.{range_with_len};

    ghost digits = { λ steps. steps.address.now };

    ghost ranks = { λ steps. range_with_len 0 (length steps.address.now + 1) };

    fn steps(&self) -> usize {
        self.address.len()
    }

    fn digit(&self, step: usize) -> u32 {
        self.address[step]
    }

    fn rank(&self, step: usize) -> u64 {
        step as u64
    }
}

/// For each leaf of a target, from the left, the index of a lifted path. An index is a hint: the
/// path may lead to another leaf.
#[derive(Drop)]
pub struct LeafTable {
    /// How many nodes of the target are above its leaves.
    inner: usize,
    paths: Vec<u32>,
}

impl LeafTable {
    /// Makes a table of these paths in a target. The error means out of memory.
    pub fn new(
        alloc: Global,
        arities: &[u32],
        paths: &[LiftedPath],
    ) -> Result<LeafTable, AllocError> {
        let (inner, leaves) = node_counts(arities);
        let mut table = vec![in alloc; 0; leaves]?;
        for (index, path) in paths.iter().enumerate() {
            let place = leaf_place(arities, &path.image);
            if let (Some(entry), Ok(index)) = (table.get_mut(place), u32::try_from(index)) {
                *entry = index;
            }
        }
        Ok(LeafTable {
            inner,
            paths: table,
        })
    }

    /// Returns the path with this image among the paths of the table, if the leaf is the one with
    /// this many nodes before it.
    #[inline(always)]
    fn find<'a>(
        &self,
        paths: &'a [LiftedPath],
        leaf: usize,
        image: &[u32],
    ) -> Option<&'a LiftedPath>
        ensures image { IfSome result (λ path. path.now.image.items ≡ image.now) }
        ensures among { IfSome result (λ path. (n : ℕ) × (slice_get paths.now n ≡ Some path.now)) }
    {
        let index = *self.paths.get(leaf.wrapping_sub(self.inner))?;
        let path = paths.get(index as usize)?;
        let own = path.image.as_slice();
        if own.len() != image.len() {
            return None;
        }
        for level in 0..own.len() {
            if own[level] != image[level] {
                return None;
            }
        }
        Some(path)
    }

    /// Writes the address of the leaf with an image to `taken`, and for each node on the path to it,
    /// the rank at its image's depth. `leaf` is the number of nodes before that leaf in the target,
    /// level by level. If it is wrong, or the table has no path to the leaf, the map is searched.
    #[inline(always)]
    pub fn pick(
        &self,
        map: &Map,
        paths: &[LiftedPath],
        leaf: usize,
        digits: &[u32],
        ranks: &[u64],
        taken: &mut Taken,
    )
        requires good { IsGoodMap (length digits.now) map.now }
        requires paths { AreLeafPaths map.now paths.now }
        requires leaf { IsLeafImage map.now digits.now }
        requires ranks { length ranks.now ≡ length digits.now + 1 }
        requires room { levels map.now ≤ taken.old.room }
        ensures leads { LeadsToImage map.now digits.now taken.new.digits }
        ensures ranks { taken.new.ranks ≡ picked_ranks map.now taken.new.digits ranks.now }
        ensures room { taken.new.room ≡ taken.old.room }
    {
        let Some(path) = self.find(paths, leaf, digits) else {
            return pick(map, digits, ranks, taken);
        };
        let address = path.address.as_slice();
        let depths = path.depths.as_slice();
        let last = address.len();
        taken.clear();
        for step in 0..last {
            taken.step(address[step], ranks[depths[step] as usize]);
        }
        taken.last(ranks[depths[last] as usize]);
    }
}

/// Returns how many inner nodes and how many leaves a target with these arities has.
fn node_counts(arities: &[u32]) -> (usize, usize) {
    let mut inner: usize = 0;
    let mut width: usize = 1;
    for arity in arities {
        inner = inner.wrapping_add(width);
        width = width.wrapping_mul(*arity as usize);
    }
    (inner, width)
}

/// Returns how many leaves of a target are to the left of the leaf with these digits.
fn leaf_place(arities: &[u32], digits: &[u32]) -> usize {
    let mut place: usize = 0;
    for (arity, digit) in arities.iter().zip(digits) {
        place = place
            .wrapping_mul(*arity as usize)
            .wrapping_add(*digit as usize);
    }
    place
}
