//! The scheduler over the queues of a fabric.
ghost use Rattle.std.specs.Prelude.{◌≡◌, ◌^◌, ◌<◌, IfOk, OnErr};
ghost use Rattle.tree_defs.specs.Tree.{SameShape};
ghost use Rattle.tree_defs.specs.Topology.{topology_of};
ghost use Rattle.embed_defs.specs.GoodMaps.{IsGoodMap};
ghost use Rattle.sched_embedded.specs.Laid.{HasLiftedPaths, MapsToLeaves};
ghost use Rattle.sched_defs.specs.SourceState.{start};
ghost use Rattle.sched_core.specs.PolicyState.{policy_in, CountsAre};
ghost use Rattle.sched_embedded.specs.Codes.{one_way_to_be_the_same, one_way_to_have_lifted_paths, one_way_to_map_to_leaves};

use crate::embedding::Embedding;
use embed_core::{LiftedPath, Map};
use fabric_core::Fabric;
use packet_defs::{Departed, Packet};
use policy_core::Policy;
use sched_core::{Arrival, PolicyState, Scheduler};
use std::alloc::{AllocError, Global};
use std::marker::PhantomData;
use target_core::Target;
use tree_core::Taken;

/// A scheduler over the queues of a fabric.
#[derive(Drop)]
pub struct Embedded<'a, F> {
    own: PolicyState<'a>,
    embedding: Embedding,
    lifted_paths: Vec<LiftedPath>,
    pushes_before: u64,
    pops_before: u64,
    fabric: PhantomData<F>,
    ghost few: { (pushes_before < 2 ^ 61) × (pops_before < 2 ^ 61) },
    ghost paths_lead: { HasLiftedPaths embedding.images (policy_in own) lifted_paths.items } by { one_way_to_have_lifted_paths embedding.images (policy_in own) lifted_paths.items },
    ghost leaves: { MapsToLeaves embedding.images embedding.arities } by { one_way_to_map_to_leaves embedding.images embedding.arities },
    ghost shape: { topology_of (policy_in own).tree ≡ topology_of embedding.images } by { one_way_to_be_the_same (topology_of (policy_in own).tree) (topology_of embedding.images) },
}

impl<'a, F: Fabric> Embedded<'a, F> {
    ghost use Rattle.sched_embedded.specs.Embedded.{EmbeddedStands, origin_of, origin_in, MapsInto, CanCount, KeepsQueues, KeepsCounts};

    /// Returns a scheduler that saw no event yet. Sets the fabric's shape to the target's, and its
    /// queues are then empty. The error means out of memory, and leaves the fabric unchanged.
    pub fn new(
        alloc: Global,
        policy: &'a Policy,
        map: Map,
        target: &Target,
        fabric: &mut F,
    ) -> Result<Embedded<'a, F>, AllocError>
        requires placed { MapsInto policy.now.policy map target.now }
        requires few { CanCount F.Fabric fabric.old }

        ensures stands { IfOk result (λ c. EmbeddedStands F.Fabric c fabric.new
            (start policy.now.policy)) }
        ensures policy { IfOk result (λ c. policy_in c.own ≡ policy.now.policy) }
        ensures fresh { IfOk result (λ c. CountsAre c.own 0 0) }
        ensures origin { IfOk result (λ c. origin_of c ≡ origin_in F.Fabric map target.now.arities
            fabric.old) }
        ensures unchanged { OnErr result (KeepsQueues F.Fabric fabric.old fabric.new) }
        ensures counts { KeepsCounts F.Fabric fabric.old fabric.new }
    {
        let own = PolicyState::new(alloc, policy)?;
        let lifted_paths = class_paths(alloc, policy, &map, target.arities.len())?;
        let embedding = Embedding::new(alloc, map, &lifted_paths, target)?;
        fabric.configure(embedding.arities())?;
        Ok(Embedded {
            own,
            embedding,
            lifted_paths,
            pushes_before: fabric.pushes(),
            pops_before: fabric.pops(),
            fabric: PhantomData,
        })
    }
}

/// Returns the lifted path to the leaf of each class. The error means out of memory.
fn class_paths(
    alloc: Global,
    policy: &Policy,
    map: &Map,
    height: usize,
) -> Result<Vec<LiftedPath>, AllocError>
    requires good { IsGoodMap height map.now }
    requires shape { SameShape (topology_of policy.now.policy.tree) map.now }
    ensures lifted_paths { IfOk result (λ v. HasLiftedPaths map.now policy.now.policy v.items) }
{
    let mut lifted_paths = Vec::new(alloc);
    for class in policy.classes() {
        lifted_paths.push(LiftedPath::to(alloc, map, policy.address(class.leaf), height)?)?;
    }
    Ok(lifted_paths)
}

impl<'a, F: Fabric> Scheduler for Embedded<'a, F> {
    type Under = F;

    ghost use Rattle.std.specs.Prelude.{Some};
    ghost use Rattle.sched_embedded.specs.Embedded.{EmbeddedStands, origin_of};

    ghost stands = { EmbeddedStands F.Fabric };

    ghost pushes = { λ c. c.own.pushes };

    ghost departures = { λ c. c.own.departures };

    ghost policy = { λ c. policy_in c.own };

    ghost origin = { λ c. Some (origin_of c) };

    ghost spilled = { λ _ fabric. F.spilled fabric };

    #[inline(always)]
    fn arrive(
        &mut self,
        under: &mut F,
        packet: &Packet,
        trace: &mut Taken,
    ) -> Result<Arrival, AllocError> {
        if self.own.is_full(packet) {
            return Ok(Arrival::Dropped(self.own.drop_packet(packet)));
        }
        let lifted_path = &self.lifted_paths[packet.class as usize];
        under.reserve(&lifted_path.image)?;
        let leaf = self.own.admit(packet, trace)?;
        let embedding = &mut self.embedding;
        lifted_path.lift(trace.ranks(), &mut embedding.ranks);
        under.push(&lifted_path.image, &embedding.ranks, packet.number);
        Ok(Arrival::Pushed(leaf))
    }

    #[inline(always)]
    fn depart(&mut self, under: &mut F, trace: &mut Taken) -> Option<Departed> {
        let embedding = &mut self.embedding;
        let Some(number) = under.pop(&mut embedding.digits, &mut embedding.ranks) else {
            self.own.count_empty_departure();
            return None;
        };
        let (table, map) = (&embedding.table, &embedding.map);
        table.pick(
            map,
            &self.lifted_paths,
            under.last_leaf(),
            &embedding.digits,
            &embedding.ranks,
            trace,
        );
        Some(self.own.release(number, trace.digits(), trace.ranks()))
    }

    #[inline(always)]
    fn held(&self) -> u64 {
        self.own.held()
    }

    #[inline(always)]
    fn now(&self) -> u64 {
        self.own.now()
    }
}
