//! The nodes of a target that a policy uses, each with its index.
ghost use Rattle.std.specs.Prelude.{◌≡◌, ◌+◌, ◌<◌, ◌≤◌, ◌^◌, ℕ, Some, [], ◌∷◌, length, slice_get, IfOk, IfSome, OnOk};
ghost use Rattle.std.specs.List.{range_with_len};
ghost use Rattle.tree_defs.specs.Tree.{LeadsToLeaf, SameShape, nodes};
ghost use Rattle.tree_defs.specs.Topology.{topology_of};
ghost use Rattle.policy_core.specs.Numbering.{address_at};
ghost use Rattle.embed_defs.specs.Images.{image_map};
ghost use Rattle.embed_defs.specs.GoodMaps.{IsGoodMap};
ghost use Rattle.embed_core.specs.LiftedPaths.{IsLiftedPathTo};
ghost use Rattle.sched_embedded.specs.Laid.{leaf_of};
ghost use Rattle.size_core.specs.Paths.{address_in, Grows, IsPath, IsPathTo};
ghost use Rattle.size_core.specs.Places.{addresses, add, add_path, add_paths};

use crate::hop::Hop;
use embed_core::{LiftedPath, Map};
use indexmap::IndexSet;
use policy_core::Policy;
use std::alloc::{AllocError, Global};

/// The address of each node, in the order of their indices.
pub(crate) type Known = IndexSet<Vec<u32>>;

/// Returns the index of the image of each node of the policy. Adds the nodes on the paths to them,
/// each after its parent. The error is out of memory.
pub(crate) fn images_of(
    alloc: Global,
    known: &mut Known,
    policy: &Policy,
    map: &Map,
) -> Result<Vec<usize>, AllocError>
    requires empty { known.old.keys ≡ [] }
    ensures added { OnOk result (addresses known.new.keys ≡
        add_paths (λ n. image_map map.now (address_at policy.now.policy.tree n))
        (nodes policy.now.policy.tree) ([] ∷ [])) }
    ensures root { OnOk result (address_in known.new.keys 0 ≡ Some []) }
    ensures many { IfOk result (λ v. length v.items ≡ nodes policy.now.policy.tree) }
    ensures few { IfOk result (λ v. length v.items < 2 ^ 32) }
    ensures each { IfOk result (λ v. (n : ℕ) → IfSome (slice_get v.items n) (λ i.
        address_in known.new.keys i ≡ Some (image_map map.now (address_at policy.now.policy.tree n)))) }
    ensures grows { Grows known.old.keys known.new.keys }
{
    index_of(alloc, known, &[])?;
    let mut indices = Vec::new(alloc);
    for number in 0..policy.count() {
        let image = map.image(policy.address(number)).unwrap_or(&[]);
        indices.push(index_along(alloc, known, image)?)?;
    }
    Ok(indices)
}

/// Returns the index of the node at an address. Adds the nodes above it, and the node itself.
fn index_along(alloc: Global, known: &mut Known, address: &[u32]) -> Result<usize, AllocError>
    ensures added { OnOk result (addresses known.new.keys ≡
        add_path (addresses known.old.keys) address.now) }
    ensures found { IfOk result (λ i. address_in known.new.keys i ≡ Some address.now) }
    ensures grows { Grows known.old.keys known.new.keys }
{
    for length in 0..address.len() {
        index_of(alloc, known, &address[..length])?;
    }
    index_of(alloc, known, address)
}

/// Returns the index of the node at an address, which is added if it isn't there.
fn index_of(alloc: Global, known: &mut Known, address: &[u32]) -> Result<usize, AllocError>
    ensures added { OnOk result (addresses known.new.keys ≡
        add (addresses known.old.keys) address.now) }
    ensures first { known.old.keys ≡ [] →
        OnOk result (address_in known.new.keys 0 ≡ Some address.now) }
    ensures found { IfOk result (λ i. address_in known.new.keys i ≡ Some address.now) }
    ensures grows { Grows known.old.keys known.new.keys }
{
    let (index, _) = known.insert_full(address.to_vec(alloc)?)?;
    Ok(index)
}

/// Returns the path of each class's packets. The error is out of memory.
pub(crate) fn paths_of(
    alloc: Global,
    known: &mut Known,
    policy: &Policy,
    map: &Map,
    height: usize,
) -> Result<Vec<Vec<Hop>>, AllocError>
    requires good { IsGoodMap height map.now }
    requires shape { SameShape (topology_of policy.now.policy.tree) map.now }
    ensures added { OnOk result (addresses known.new.keys ≡
        add_paths (λ n. image_map map.now (leaf_of policy.now.policy n))
        (length policy.now.policy.classes) (addresses known.old.keys)) }
    ensures many { IfOk result (λ v. length v.items ≡ length policy.now.policy.classes) }
    ensures each { IfOk result (λ v. (n : ℕ) → IfSome (slice_get v.items n) (λ hops.
        IsPathTo known.new.keys map.now (leaf_of policy.now.policy n) hops.items)) }
    ensures grows { Grows known.old.keys known.new.keys }
{
    let mut paths = Vec::new(alloc);
    for class in policy.classes() {
        let path = path_to(alloc, known, map, policy.address(class.leaf), height)?;
        paths.push(path)?;
    }
    Ok(paths)
}

/// Returns the path to the leaf at an address.
fn path_to(
    alloc: Global,
    known: &mut Known,
    map: &Map,
    leaf: &[u32],
    height: usize,
) -> Result<Vec<Hop>, AllocError>
    requires leaf { LeadsToLeaf map.now leaf.now }
    requires good { IsGoodMap height map.now }
    ensures added { OnOk result (addresses known.new.keys ≡
        add_path (addresses known.old.keys) (image_map map.now leaf.now)) }
    ensures path { IfOk result (λ v. IsPathTo known.new.keys map.now leaf.now v.items) }
    ensures grows { Grows known.old.keys known.new.keys }
{
    let lifted = LiftedPath::to(alloc, map, leaf, height)?;
    let steps = steps_of(alloc, map, leaf, &lifted)?;
    let hops = hops_of(alloc, known, &lifted.image, &steps)?;
    Ok(hops)
}

/// Returns the index of the rank of each node on a lifted path to a leaf.
fn steps_of(
    alloc: Global,
    map: &Map,
    leaf: &[u32],
    lifted: &LiftedPath,
) -> Result<Vec<u64>, AllocError>
    requires lifted { IsLiftedPathTo map.now leaf.now lifted.now }
    ensures steps { IfOk result (λ v. v.items ≡ lifted.now.steps.items) }
    ensures long { IfOk result (λ v. length v.items ≡ length lifted.now.image.items + 1) }
{
    let ranks = numbers(alloc, leaf.len() + 1)?;
    let mut steps = vec![in alloc; 0; lifted.image.len() + 1]?;
    lifted.lift(&ranks, &mut steps);
    Ok(steps)
}

/// Returns the numbers below a count.
fn numbers(alloc: Global, count: usize) -> Result<Vec<u64>, AllocError>
    ensures numbers { IfOk result (λ v. v.items ≡ range_with_len 0 count) }
{
    let mut numbers = Vec::new(alloc);
    for number in 0..count {
        numbers.push(number as u64)?;
    }
    Ok(numbers)
}

/// Returns the nodes from the root down to an address.
fn hops_of(
    alloc: Global,
    known: &mut Known,
    image: &[u32],
    steps: &[u64],
) -> Result<Vec<Hop>, AllocError>
    requires long { length steps.now ≡ length image.now + 1 }
    ensures added { OnOk result (addresses known.new.keys ≡
        add_path (addresses known.old.keys) image.now) }
    ensures path { IfOk result (λ v. IsPath known.new.keys image.now steps.now v.items) }
    ensures grows { Grows known.old.keys known.new.keys }
{
    let mut hops = Vec::new(alloc);
    for depth in 0..steps.len() {
        let node = index_of(alloc, known, &image[..depth])?;
        hops.push(Hop {
            node,
            step: steps[depth],
            digit: image.get(depth).copied(),
        })?;
    }
    Ok(hops)
}
