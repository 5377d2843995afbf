//! The plan of a policy for a target.
ghost use Rattle.std.specs.Prelude.{◌≡◌, ◌++◌, IfOk, OnOk};
ghost use Rattle.embed_defs.specs.Target.{IsInRange};
ghost use Rattle.embed_plan.specs.Plan.{IsPlan, map_lines};

use crate::lines::{put_least, put_map};
use embed_core::{EmbedFault, Map, Target, embed, least_height};
use policy_core::Policy;
use std::alloc::{AllocError, Global};

/// Says whether the target has room for the policy's tree, and holds the text of the plan.
#[derive(Drop)]
pub struct PlanText {
    pub fits: bool,
    pub text: Vec<u8>,
}

/// Appends a line for each node and leaf of the policy in preorder.
fn put_maps(into: &mut Vec<u8>, policy: &Policy, map: &Map) -> Result<(), AllocError>
    ensures { OnOk result (into.new.items ≡ into.old.items ++ map_lines policy.now.policy map.now) }
{
    for node in 0..policy.count() {
        let source = policy.address(node);
        let image = map.image(source).unwrap_or(&[]);
        put_map(into, policy.name(node), source, image)?;
    }
    Ok(())
}

/// Plans a policy for a target: the least height of a tree that has room for it, and the image of
/// each of its nodes, if the target has room. The error means out of memory.
pub fn plan(alloc: Global, policy: &Policy, target: &Target) -> Result<PlanText, AllocError>
    requires range { IsInRange target.now.arities target.now.above }
    ensures plan { IfOk result (λ p. IsPlan policy.now.policy target.now.arities target.now.above
        p.fits p.text.items) }
{
    let mut text = Vec::new(alloc);
    put_least(&mut text, least_height(alloc, policy.topo(), target)?)?;
    match embed(alloc, policy.topo(), target) {
        Ok(map) => {
            put_maps(&mut text, policy, &map)?;
            Ok(PlanText { fits: true, text })
        }
        Err(EmbedFault::NoEmbedding) => Ok(PlanText { fits: false, text }),
        Err(EmbedFault::NoMemory) => Err(AllocError),
    }
}
