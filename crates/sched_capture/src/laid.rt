//! A policy whose tree is laid into the hardware's queues.
ghost use Rattle.std.specs.Prelude.{◌≡◌};
ghost use Rattle.sched_embedded.specs.Embedded.{MapsInto};

use embed_core::{Map, Target};
use policy_core::Policy;
use std::marker::Model;

/// A policy, a target in range, and a map that embeds the policy's tree into the target.
#[derive(Drop)]
pub struct LaidPolicy {
    policy: Policy,
    target: Target,
    map: Map,
}

impl Model for LaidPolicy {
    ghost use Rattle.sched_embedded.specs.Embedded.{MapsInto};
    ghost use Rattle.sched_capture.specs.Placements.{Placed};
    ghost use Rattle.sched_capture.specs.Codes.{placed_code};

    ghost Value = { Placed };

    ghost coded = { placed_code };

    ghost view = { λ l. record { policy = l.policy; target = l.target; map = l.map } };

    ghost invariant = { λ l. MapsInto l.policy.policy l.map l.target };
}

impl LaidPolicy {
    /// Lays a policy's tree into a target by a map.
    pub fn new(policy: Policy, target: Target, map: Map) -> LaidPolicy
        requires placed { MapsInto policy.policy map target }
        ensures { result ≡ record { policy = policy; target = target; map = map } }
    {
        LaidPolicy {
            policy,
            target,
            map,
        }
    }

    /// Returns the policy.
    pub fn policy(&self) -> &Policy
        ensures policy { result.now ≡ self.now.policy }
    {
        &self.policy
    }

    /// Returns the target.
    pub fn target(&self) -> &Target
        ensures target { result.now ≡ self.now.target }
    {
        &self.target
    }

    /// Returns the map.
    pub fn map(&self) -> &Map
        ensures map { result.now ≡ self.now.map }
        ensures placed { MapsInto self.now.policy.policy self.now.map self.now.target }
    {
        &self.map
    }

    /// Returns the policy, the target and the map.
    pub fn into_parts(self) -> (Policy, Target, Map)
        ensures policy { result.0 ≡ self.policy }
        ensures target { result.1 ≡ self.target }
        ensures map { result.2 ≡ self.map }
        ensures placed { MapsInto result.0.policy result.2 result.1 }
    {
        let LaidPolicy {
            policy,
            target,
            map,
        } = self;
        (policy, target, map)
    }
}
