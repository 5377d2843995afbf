//! What a policy needs of a target that has no room for it.
ghost use Rattle.embed_defs.specs.Target.{IsInRange};

use embed_core::{Target, least_height};
use policy_core::{Policy, resolve};
use policy_text::{Edition, parse_to};
use std::alloc::{AllocError, Global};
use target_core::read_target;

/// The most children of a node of a target.
const MOST_ARITY: u32 = 64;

/// Returns whether a complete tree of this arity and height has room for a policy's tree. Fails if
/// out of memory.
fn has_room(alloc: Global, policy: &Policy, arity: u32, height: usize) -> Result<bool, AllocError> {
    let text = format!(in alloc; "arity = {arity}\nheight = {height}\n")?;
    match read_target(alloc, text.as_bytes()) {
        Ok(target) => Ok(least_height(alloc, policy.topo(), &target)? as usize <= height),
        Err(_) => Ok(false),
    }
}

/// Returns the least arity with which a complete tree of this height has room for a policy's tree.
/// Fails if out of memory.
fn arity_needed(alloc: Global, policy: &Policy, height: usize) -> Result<Option<u32>, AllocError> {
    for arity in 2..=MOST_ARITY {
        if has_room(alloc, policy, arity, height)? {
            return Ok(Some(arity));
        }
    }
    Ok(None)
}

/// Returns the arity that would do instead of more height, as a line of a message. Fails if out of
/// memory.
fn arity_text(alloc: Global, policy: &Policy, height: usize) -> Result<String, AllocError> {
    if height == 0 {
        return Ok(String::new(alloc));
    }
    match arity_needed(alloc, policy, height)? {
        Some(arity) => format!(in alloc; "  with height {height}, arity {arity} has room\n"),
        None => format!(in alloc; "  with height {height}, no arity has room\n"),
    }
}

/// Returns what a policy needs and what a target has, as lines of a message. Fails if out of memory.
fn needs_text(alloc: Global, policy: &Policy, target: &Target) -> Result<String, AllocError>
    requires range { IsInRange target.now.arities target.now.above }
{
    let has = target.height();
    let needs = least_height(alloc, policy.topo(), target)? as usize;
    if needs <= has {
        return format!(in alloc;
            "  needs height 0, the target has {has}: the policy's root is a leaf, and only one queue has room for it\n  to keep the target, write a node root that has the leaf as its child\n"
        );
    }
    let more = needs - has;
    let levels = if more == 1 { "level is" } else { "levels are" };
    let arity = arity_text(alloc, policy, has)?;
    format!(in alloc;
        "  needs height {needs}, the target has {has}: {more} {levels} missing\n{arity}"
    )
}

/// Returns what the policy of a text needs and what the target of a text has, as lines of a message.
/// Returns nothing if one of them isn't accepted. Fails if out of memory.
pub fn size_detail(alloc: Global, policy: &[u8], target: &[u8]) -> Result<String, AllocError> {
    let Ok(lines) = parse_to(alloc, policy, Edition::Third) else {
        return Ok(String::new(alloc));
    };
    match (resolve(alloc, &lines), read_target(alloc, target)) {
        (Ok(policy), Ok(target)) => needs_text(alloc, &policy, &target),
        _ => Ok(String::new(alloc)),
    }
}
