//! The scheduler over the policy's own tree of queues.
ghost use Rattle.std.specs.Prelude.{◌≡◌, IfOk};
ghost use Rattle.sched_defs.specs.SourceState.{start};

use crate::policy_state::PolicyState;
use crate::scheduler::{Arrival, Scheduler};
use packet_defs::{Departed, Packet};
use policy_core::Policy;
use std::alloc::{AllocError, Global};
use tree_core::{SourceTree, Taken};

/// A scheduler over the source tree itself.
#[derive(Drop)]
pub struct Direct<'a> {
    own: PolicyState<'a>,
}

impl<'a> Direct<'a> {
    ghost use Rattle.sched_core.specs.PolicyState.{policy_in};
    ghost use Rattle.sched_core.specs.Direct.{DirectStands};

    /// Returns a scheduler that saw no event yet, and the empty tree of the policy's topology. The
    /// error means out of memory.
    pub fn new(alloc: Global, policy: &'a Policy) -> Result<(Direct<'a>, SourceTree), AllocError>
        ensures stands { IfOk result (λ r. DirectStands r.0 r.1 (start policy.now.policy)) }
        ensures policy { IfOk result (λ r. policy_in r.0.own ≡ policy.now.policy) }
        ensures pushes { IfOk result (λ r. r.0.own.pushes ≡ 0) }
        ensures departures { IfOk result (λ r. r.0.own.departures ≡ 0) }
    {
        let own = PolicyState::new(alloc, policy)?;
        let tree = SourceTree::new(alloc, policy.topo())?;
        Ok((Direct { own }, tree))
    }
}

impl<'a> Scheduler for Direct<'a> {
    type Under = SourceTree;

    ghost use Rattle.std.specs.Prelude.{None};
    ghost use Rattle.sched_core.specs.PolicyState.{policy_in};
    ghost use Rattle.sched_core.specs.Direct.{DirectStands};

    ghost stands = { DirectStands };

    ghost pushes = { λ c. c.own.pushes };

    ghost departures = { λ c. c.own.departures };

    ghost policy = { λ c. policy_in c.own };

    ghost origin = { λ _. None };

    ghost spilled = { λ _ _. None };

    #[inline(always)]
    fn arrive(
        &mut self,
        under: &mut SourceTree,
        packet: &Packet,
        trace: &mut Taken,
    ) -> Result<Arrival, AllocError> {
        if self.own.is_full(packet) {
            return Ok(Arrival::Dropped(self.own.drop_packet(packet)));
        }
        under.reserve(self.own.address(packet))?;
        let leaf = self.own.admit(packet, trace)?;
        under.push_to(trace.digits(), trace.ranks(), packet.number);
        Ok(Arrival::Pushed(leaf))
    }

    #[inline(always)]
    fn depart(&mut self, under: &mut SourceTree, trace: &mut Taken) -> Option<Departed> {
        match under.pop(trace) {
            None => {
                self.own.count_empty_departure();
                None
            }
            Some(number) => Some(self.own.release(number, trace.digits(), trace.ranks())),
        }
    }

    #[inline(always)]
    fn held(&self) -> u64 {
        self.own.held()
    }

    #[inline(always)]
    fn now(&self) -> u64 {
        self.own.now()
    }
}
