//! The flat model of the hardware: all queues in one array.
ghost use Rattle.std.specs.Prelude.{IfOk};

use crate::fabric::Fabric;
use crate::shape::Shape;
use crate::walk::{empty_queues, pop_along, push_along, reserve_along};
use pifo_core::HeapPifo;
use std::alloc::{AllocError, Global};
use std::marker::Model;

/// A fabric with its queues in one array, level by level from the root.
#[derive(Drop)]
pub struct FlatFabric {
    alloc: Global,
    shape: Shape,
    queues: Vec<HeapPifo>,
    pushed: u64,
    popped: u64,
    /// The index of the leaf of the last pop.
    leaf: usize,
}

impl Model for FlatFabric {
    ghost use Rattle.fabric_core.specs.Flow.{IsSound};
    ghost use Rattle.fabric_core.specs.Flat.{Flat, entries_of, pushes_of};

    ghost Value = { Flat };

    ghost view = { λ f. record { arities = f.shape; queues = f.queues.items; pushed = f.pushed; popped = f.popped } };

    ghost invariant = { λ f. IsSound f.shape (entries_of f.queues.items) (pushes_of f.queues.items) f.pushed };
}

impl FlatFabric {
    ghost use Rattle.fabric_core.specs.Flat.{IsNew};

    /// Makes a fabric of a single empty leaf, with no pushes or pops yet.
    pub fn new(alloc: Global) -> Result<FlatFabric, AllocError>
        ensures { IfOk result IsNew }
    {
        Ok(FlatFabric {
            alloc,
            shape: Shape::new(alloc, &[])?,
            queues: empty_queues(alloc, &[])?,
            pushed: 0,
            popped: 0,
            leaf: 0,
        })
    }
}

impl Fabric for FlatFabric {
    ghost use Rattle.std.specs.Prelude.{None};
    ghost use Rattle.fabric_core.specs.Flat.{flat_queues, flat_room};

    ghost shape = { λ f. f.arities };

    ghost queues = { λ f. flat_queues f };

    ghost pushed = { λ f. f.pushed };

    ghost popped = { λ f. f.popped };

    ghost spilled = { λ _. None };

    ghost room = { λ f. flat_room f };

    fn configure(&mut self, arities: &[u32]) -> Result<(), AllocError> {
        let queues = empty_queues(self.alloc, arities)?;
        self.shape = Shape::new(self.alloc, arities)?;
        self.queues = queues;
        Ok(())
    }

    #[inline(always)]
    fn reserve(&mut self, digits: &[u32]) -> Result<(), AllocError> {
        reserve_along(&mut self.queues, &self.shape, digits)
    }

    #[inline(always)]
    fn push(&mut self, digits: &[u32], ranks: &[u64], item: u64) {
        push_along(&mut self.queues, &self.shape, digits, ranks, item);
        self.pushed += 1;
    }

    #[inline(always)]
    fn pop(&mut self, digits: &mut [u32], ranks: &mut [u64]) -> Option<u64> {
        self.popped += 1;
        pop_along(&mut self.queues, &self.shape, digits, ranks, &mut self.leaf)
    }

    #[inline(always)]
    fn last_leaf(&self) -> usize {
        self.leaf
    }

    fn pushes(&self) -> u64 {
        self.pushed
    }

    fn pops(&self) -> u64 {
        self.popped
    }
}
