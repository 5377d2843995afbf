//! The hardware model that counts its spills: all queues of rank stores in one array.
ghost use Rattle.std.specs.Prelude.{◌≡◌, IfOk};

use crate::block::BlockPifo;
use fabric_core::{Fabric, Shape, empty_queues, pop_along, push_along, reserve_along};
use std::alloc::{AllocError, Global};
use std::marker::Model;

/// A fabric with its queues of rank stores in one array, level by level from the root. It counts
/// the pushes that spill.
#[derive(Drop)]
pub struct BlockFabric {
    alloc: Global,
    shape: Shape,
    queues: Vec<BlockPifo>,
    pushed: u64,
    popped: u64,
    /// The index of the leaf of the last pop.
    leaf: usize,
    spilled: u128,
}

impl Model for BlockFabric {
    ghost use Rattle.block_core.specs.BlockTree.{BlockTree, IsBlockTree};

    ghost Value = { BlockTree };

    ghost view = { λ f. record {
      arities = f.shape;
      queues = f.queues.items;
      pushed = f.pushed;
      popped = f.popped;
      spilled = f.spilled;
    } };

    ghost invariant = { λ f. IsBlockTree f.shape f.queues.items f.pushed f.spilled };
}

impl BlockFabric {
    ghost use Rattle.block_core.specs.BlockTree.{IsNew};

    /// Makes a fabric of a single empty leaf, with no pushes, pops or spills yet.
    pub fn new(alloc: Global) -> Result<BlockFabric, AllocError>
        ensures { IfOk result IsNew }
    {
        Ok(BlockFabric {
            alloc,
            shape: Shape::new(alloc, &[])?,
            queues: empty_queues(alloc, &[])?,
            pushed: 0,
            popped: 0,
            leaf: 0,
            spilled: 0,
        })
    }

    /// Returns the number of spills so far. A push counts once for each node at which it spilled.
    pub fn spills(&self) -> u128
        ensures { result ≡ self.now.spilled }
    {
        self.spilled
    }
}

impl Fabric for BlockFabric {
    ghost use Rattle.std.specs.Prelude.{Some};
    ghost use Rattle.block_core.specs.BlockTree.{block_queues, block_room};

    ghost shape = { λ f. f.arities };

    ghost queues = { λ f. block_queues f };

    ghost pushed = { λ f. f.pushed };

    ghost popped = { λ f. f.popped };

    ghost spilled = { λ f. Some f.spilled };

    ghost room = { λ f. block_room f };

    fn configure(&mut self, arities: &[u32]) -> Result<(), AllocError> {
        let queues = empty_queues(self.alloc, arities)?;
        self.shape = Shape::new(self.alloc, arities)?;
        self.queues = queues;
        Ok(())
    }

    fn reserve(&mut self, digits: &[u32]) -> Result<(), AllocError> {
        reserve_along(&mut self.queues, &self.shape, digits)
    }

    fn push(&mut self, digits: &[u32], ranks: &[u64], item: u64) {
        let spilled = push_along(&mut self.queues, &self.shape, digits, ranks, item);
        self.spilled += u128::from(spilled);
        self.pushed += 1;
    }

    fn pop(&mut self, digits: &mut [u32], ranks: &mut [u64]) -> Option<u64> {
        self.popped += 1;
        pop_along(&mut self.queues, &self.shape, digits, ranks, &mut self.leaf)
    }

    #[inline(always)]
    fn last_leaf(&self) -> usize {
        self.leaf
    }

    fn pushes(&self) -> u64 {
        self.pushed
    }

    fn pops(&self) -> u64 {
        self.popped
    }
}
