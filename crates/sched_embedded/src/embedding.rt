//! A tree laid into the queues of a fabric.
ghost use Rattle.std.specs.Prelude.{◌≡◌, IfOk};
ghost use Rattle.sched_embedded.specs.Laid.{IsLaid};

use embed_core::{LeafTable, LiftedPath, Map};
use list_core::List;
use std::alloc::{AllocError, Global};
use std::marker::Model;
use target_core::Target;

/// A tree laid into a target's tree, with room for the path to one leaf there, and a table of the
/// target's leaves.
#[derive(Drop)]
pub struct Embedding {
    pub(crate) map: Map,
    pub(crate) table: LeafTable,
    arities: List<u32>,
    pub(crate) digits: Vec<u32>,
    pub(crate) ranks: Vec<u64>,
}

impl Model for Embedding {
    ghost use Rattle.std.specs.Prelude.{length};
    ghost use Rattle.sched_embedded.specs.Laid.{Laid, HasRoomForOne};
    ghost use Rattle.sched_embedded.specs.Codes.{laid_code};

    ghost Value = { Laid };

    ghost coded = { laid_code };

    ghost view = { λ e. record { images = e.map; arities = e.arities } };

    ghost invariant = { λ e. HasRoomForOne e.map e.arities (length e.digits.items) (length e.ranks.items) };
}

impl Embedding {
    /// Returns an embedding of this map in a target, with a table of these lifted paths. The error
    /// means out of memory.
    pub fn new(
        alloc: Global,
        map: Map,
        lifted_paths: &[LiftedPath],
        target: &Target,
    ) -> Result<Embedding, AllocError>
        requires laid { IsLaid map target.now.arities }
        ensures images { IfOk result (λ e. e.images ≡ map) }
        ensures arities { IfOk result (λ e. e.arities ≡ target.now.arities) }
    {
        let arities = target.arities.as_slice().to_vec(alloc)?;
        let table = LeafTable::new(alloc, &arities, lifted_paths)?;
        let digits = vec![in alloc; 0; arities.len()]?;
        let ranks = vec![in alloc; 0; arities.len() + 1]?;
        Ok(Embedding {
            map,
            table,
            arities: List::from_vec(arities),
            digits,
            ranks,
        })
    }

    /// Returns the target's arities, from the root down.
    pub fn arities(&self) -> &[u32]
        ensures arities { result.now ≡ self.now.arities }
    {
        self.arities.as_slice()
    }
}
