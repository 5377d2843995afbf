//! The queues through which the packets of a policy go.
ghost use Rattle.std.specs.Prelude.{◌≡◌};
ghost use Rattle.study.specs.Places.{policy_in};

use policy_core::Policy;
use sched_capture::LaidPolicy;

/// A policy, and the queues through which its packets go.
#[derive(Drop)]
pub enum Place {
    /// The policy's own tree of queues.
    Own(Policy),
    /// The fabric, into which the policy's tree is laid.
    Laid(LaidPolicy),
}

impl Place {
    /// Returns the policy.
    pub fn policy(&self) -> &Policy
        ensures policy { result.now ≡ policy_in self.now }
    {
        match self {
            Place::Own(policy) => policy,
            Place::Laid(laid) => laid.policy(),
        }
    }
}
