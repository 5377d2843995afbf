//! The names of the policy's nodes that the nodes of a target serve.
ghost use Rattle.std.specs.Prelude.{◌≡◌, ◌≤◌, ◌<◌, ◌^◌, ℕ, None, Some, length, slice_get, slice_set, IfOk, IfSome};
ghost use Rattle.tree_defs.specs.Tree.{nodes};
ghost use Rattle.size_core.specs.Names.{IsServed};

use list_core::Name;
use policy_core::Policy;
use std::alloc::{AllocError, Global};

/// Returns the name that each of `count` nodes serves. `indices` has the index of the image of each
/// node of the policy.
pub(crate) fn names_of(
    alloc: Global,
    policy: &Policy,
    indices: &[usize],
    count: usize,
) -> Result<Vec<Option<Name>>, AllocError>
    requires many { length indices.now ≤ nodes policy.now.policy.tree }
    requires few { length indices.now < 2 ^ 32 }
    ensures count { IfOk result (λ v. length v.items ≡ count) }
    ensures each { IfOk result (λ v. (i : ℕ) → IfSome (slice_get v.items i)
        (λ name. IsServed policy.now.policy.tree indices.now (length indices.now) i name)) }
{
    let mut names = no_names(alloc, count)?;
    for number in 0..indices.len() {
        let name = Name::new(alloc, policy.name(number as u32))?;
        serve(&mut names, indices[number], name);
    }
    Ok(names)
}

/// Sets the name of a node, if there is one with this index.
fn serve(names: &mut Vec<Option<Name>>, index: usize, name: Name)
    ensures { names.new.items ≡ slice_set names.old.items index (Some name) }
{
    if index < names.len() {
        names[index] = Some(name);
    }
}

/// Returns that many missing names.
fn no_names(alloc: Global, count: usize) -> Result<Vec<Option<Name>>, AllocError>
    ensures count { IfOk result (λ v. length v.items ≡ count) }
    ensures none { IfOk result (λ v. (i : ℕ) → IfSome (slice_get v.items i) (λ name. name ≡ None)) }
{
    let mut names = Vec::with_capacity(alloc, count)?;
    for _ in 0..count {
        names.push(None)?;
    }
    Ok(names)
}
