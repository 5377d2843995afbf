//! Policies that are laid into a target.
ghost use Rattle.std.specs.Prelude.{◌≡◌};
ghost use Rattle.tree_defs.specs.Topology.{topology_of};
ghost use Rattle.tree_core.specs.Shape.{topology};
ghost use Rattle.embed_defs.specs.Target.{IsInRange};
ghost use Rattle.replay_app.specs.Decided.{IsInput, IsOfKind, StopsForMemory};
ghost use Rattle.replay_app.specs.Placing.{unplaced, IsLaidAs, IsLaidAlong};
ghost use Rattle.replay_app.specs.Targets.{HasNoRoom};
ghost use Rattle.replay_app.specs.Via.{IsRoute};

use crate::not_run::NotRun;
use crate::targets::NO_ROOM;
use embed_core::{EmbedFault, Map, Target, embed};
use mapcheck_core::{Given, compose};
use outside_core::Stop;
use policy_core::Policy;
use report_core::FaultKind;
use sched_capture::LaidPolicy;
use std::alloc::Global;
use tree_core::Topo;

/// Returns why nothing runs if a topology isn't embedded.
fn unplaced(fault: EmbedFault) -> NotRun
    ensures { result ≡ unplaced fault }
{
    match fault {
        EmbedFault::NoEmbedding => NotRun::rejected(FaultKind::Size, NO_ROOM),
        EmbedFault::NoMemory => NotRun::Stopped(Stop::Memory),
    }
}

/// Embeds the tree of a policy into a target.
pub fn lay(alloc: Global, policy: Policy, target: Target) -> Result<LaidPolicy, NotRun>
    requires range { IsInRange target.arities target.above }

    ensures laid { IsInput (HasNoRoom (topology_of policy.policy.tree) target)
        (IsLaidAs policy target) result }
    ensures kind { IsOfKind FaultKind.Size result }
    ensures memory { StopsForMemory result }
{
    match embed(alloc, policy.topo(), &target) {
        Ok(map) => Ok(LaidPolicy::new(policy, target, map)),
        Err(fault) => Err(unplaced(fault)),
    }
}

/// Embeds a topology into a target, and lays the tree of a policy there along a map into the
/// topology.
pub fn lay_along(
    alloc: Global,
    policy: Policy,
    middle: &Topo,
    given: &Given,
    target: Target,
) -> Result<LaidPolicy, NotRun>
    requires route { IsRoute policy.policy (topology middle.now) given.now }
    requires range { IsInRange target.arities target.above }

    ensures laid { IsInput (HasNoRoom (topology middle.now) target)
        (IsLaidAlong policy given.now (topology middle.now) target) result }
    ensures kind { IsOfKind FaultKind.Size result }
    ensures memory { StopsForMemory result }
{
    match embed(alloc, middle, &target) {
        Ok(placement) => {
            let map = compose(alloc, policy.topo(), given, &placement, &target)?;
            Ok(LaidPolicy::new(policy, target, map))
        }
        Err(fault) => Err(unplaced(fault)),
    }
}
