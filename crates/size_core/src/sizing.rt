//! Watches the queues of a target in a run.
ghost use Rattle.std.specs.Prelude.{length};
ghost use Rattle.size_core.specs.Hops.{ArePathsInside};

use crate::hop::Hop;
use crate::limits::Limits;
use crate::names::names_of;
use crate::places::{Known, images_of, paths_of};
use crate::queues::{Queues, empty_nodes};
use crate::results::{overflow_of, sizes_of};
use crate::size::Sizes;
use embed_core::Map;
use indexmap::IndexSet;
use list_core::Name;
use packet_defs::Packet;
use policy_core::Policy;
use std::alloc::{AllocError, Global};
use target_core::Target;

/// Watches the queues of a target while packets pass, and records how large they get.
#[derive(Drop)]
pub struct Sizing {
    /// The nodes on the path of each class's packets, from the root down.
    class_hops: Vec<Vec<Hop>>,
    known: Known,
    /// The names that the nodes serve.
    names: Vec<Option<Name>>,
    queues: Queues,
    /// The number of digits of a leaf's address.
    height: usize,
    /// Whether each call so far succeeded.
    pub(crate) live: bool,
    ghost inside: { ArePathsInside (length queues.nodes.items) class_hops.items },
}

impl Sizing {
    ghost use Rattle.std.specs.Prelude.{◌≡◌, ℕ, Option, List, [], ◌∷◌, IfOk, OnOk};
    ghost use Rattle.tree_defs.specs.Tree.{Address, SameShape};
    ghost use Rattle.tree_defs.specs.Topology.{topology_of};
    ghost use Rattle.packet_defs.specs.declared.packet.Packet.{Packet};
    ghost use Rattle.sched_defs.specs.Events as run;
    ghost use Rattle.embed_defs.specs.Target.{IsInRange};
    ghost use Rattle.embed_defs.specs.GoodMaps.{IsGoodMap};
    ghost use Rattle.size_core.specs.Hops.{Watched};
    ghost use Rattle.size_core.specs.Watching.{Watches, WatchesAll};
    ghost use Rattle.size_core.specs.Results.{IsUnused, HasSizes};

    /// Returns a recorder of no event, for a policy that a map lays into a target. It watches rank
    /// stores too if `stores` is true. The error is out of memory.
    pub fn new(
        alloc: Global,
        policy: &Policy,
        map: &Map,
        target: &Target,
        limits: Limits,
        stores: bool,
    ) -> Result<Sizing, AllocError>
        requires range { IsInRange target.now.arities target.now.above }
        requires good { IsGoodMap (length target.now.arities) map.now }
        requires shape { SameShape (topology_of policy.now.policy.tree) map.now }
        ensures unused { IfOk result (IsUnused
            (record { images = map.now; arities = target.now.arities }) policy.now.policy limits stores) }
    {
        let mut known = IndexSet::new(alloc);
        let indices = images_of(alloc, &mut known, policy, map)?;
        let class_hops = paths_of(alloc, &mut known, policy, map, target.height())?;
        let names = names_of(alloc, policy, &indices, known.len())?;
        let nodes = empty_nodes(alloc, &known, target, stores)?;
        Ok(Sizing {
            class_hops,
            known,
            names,
            queues: Queues {
                nodes,
                limits,
                passed: None,
            },
            height: target.height(),
            live: true,
        })
    }

    /// Pushes a packet at each node on its path. The error is out of memory.
    pub(crate) fn push(
        &mut self,
        event: u64,
        packet: &Packet,
        ranks: &[u64],
    ) -> Result<(), AllocError>
        ensures ok { OnOk result ((a : Address) →
            WatchesAll self.old event (run.Arrived packet.now a ranks.now ∷ []) self.new) }
        ensures live { self.new.live ≡ self.old.live }
    {
        match self.class_hops.get(packet.class as usize) {
            Some(hops) => self.queues.push_along(event, packet.number, ranks, hops),
            None => Ok(()),
        }
    }

    /// Pops an entry at each node on the path of a class's packets.
    pub(crate) fn pop(&mut self, class: u32)
        ensures ok { (event : ℕ) (p : Packet) (a : Address) (ranks : List ℕ) (start : Option ℕ) →
            p.class ≡ class →
            WatchesAll self.old event (run.Departed p a ranks start ∷ []) self.new }
        ensures live { self.new.live ≡ self.old.live }
    {
        if let Some(hops) = self.class_hops.get(class as usize) {
            self.queues.pop_along(hops);
        }
    }

    /// Returns how large the queues got. The error is out of memory.
    pub fn into_sizes(mut self, alloc: Global) -> Result<Sizes, AllocError>
        ensures sizes { IfOk result (λ r. (s : Watched) → Watches self s → HasSizes self s r) }
    {
        self.sizes(alloc)
    }

    /// Returns how large the queues got, and pops an entry of each.
    fn sizes(&mut self, alloc: Global) -> Result<Sizes, AllocError>
        ensures sizes { IfOk result (λ r. (s : Watched) → Watches self.old s →
            HasSizes self.old s r) }
    {
        let overflow = overflow_of(alloc, &self.known, self.queues.passed)?;
        let most = match self.queues.nodes.first() {
            Some(root) => root.most(),
            None => 0,
        };
        let nodes = sizes_of(alloc, &self.known, &self.names, &mut self.queues.nodes)?;
        Ok(Sizes {
            nodes,
            entries: most as u128 * (self.height as u128 + 1),
            overflow,
        })
    }
}
