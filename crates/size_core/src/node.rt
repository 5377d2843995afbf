//! The queue of a node, and its use so far.
ghost use Rattle.std.specs.Prelude.{◌≡◌, ◌≤◌, ◌<◌, ◌+◌, ◌^◌, length, max, if◌then◌else◌, ◌==◌, option_map, IfOk, OnOk, OnErr};
ghost use Rattle.size_core.specs.Stores.{spills_in, store_pushed, store_popped};

use crate::size::StoreUse;
use crate::stores::Stores;
use pifo_core::{HeapPifo, Pifo};
use std::alloc::{AllocError, Global};

/// No queue sees this many pushes.
const MOST_PUSHES: u64 = 1 << 62;

/// A node's queue and its use so far.
#[derive(Drop)]
pub(crate) struct Node {
    queue: HeapPifo,
    most: usize,
    top: u64,
    /// The greatest rank pushed since the queue was last empty.
    crest: u64,
    /// The span without what the queue's present entries add.
    span: u64,
    stores: Option<Stores>,
    ghost few: { spills_in stores ≤ queue.pushes },
}

/// The figures of a node's use.
#[derive(Clone, Copy)]
pub(crate) struct Figures {
    pub pushes: u64,
    pub most: u64,
    pub top: u64,
    pub span: u64,
    pub stores: Option<StoreUse>,
}

impl Node {
    ghost use Rattle.size_core.specs.Use.{Use, unused, pushed, popped};
    ghost use Rattle.size_core.specs.Watching.{Has};
    ghost use Rattle.size_core.specs.Results.{figures_of};

    /// Returns an empty queue with these stores, in which nothing spilled.
    pub fn new(alloc: Global, stores: Option<Stores>) -> Node
        requires none { spills_in stores ≡ 0 }
        ensures { Has result (unused stores) }
    {
        Node {
            queue: HeapPifo::new(alloc),
            most: 0,
            top: 0,
            crest: 0,
            span: 0,
            stores,
        }
    }

    /// Returns the number of entries.
    pub fn len(&self) -> usize
        ensures { result ≡ length self.now.queue.entries }
    {
        self.queue.len()
    }

    /// Returns the greatest number of entries so far.
    pub fn most(&self) -> usize
        ensures { result ≡ self.now.most }
    {
        self.most
    }

    /// Pushes an entry. The error is out of memory.
    pub fn push(&mut self, rank: u64, value: u64) -> Result<(), AllocError>
        ensures pushed { OnOk result ((u : Use) →
            Has self.old u → Has self.new (pushed rank value u)) }
    {
        if self.queue.pushed() >= MOST_PUSHES {
            return Err(AllocError);
        }
        self.queue.reserve(1)?;
        store(&mut self.stores, rank, value)?;
        self.crest = crest(&self.queue, self.crest, rank);
        self.queue.push(rank, value);
        self.most = self.most.max(self.queue.len());
        self.top = self.top.max(rank);
        Ok(())
    }

    /// Pops the next entry, if there is one.
    pub fn pop(&mut self)
        ensures popped { (u : Use) → Has self.old u → Has self.new (popped u) }
        ensures span { (u : Use) → Has self.old u → self.new.span ≡ u.span }
    {
        let Some((rank, value)) = self.queue.pop() else {
            return;
        };
        self.span = self.span.max(self.crest.saturating_sub(rank));
        unstore(&mut self.stores, rank, value);
    }

    /// Returns the figures of the whole use. Pops an entry.
    pub fn figures(&mut self) -> Figures
        ensures { (u : Use) → Has self.old u → result ≡ figures_of u }
    {
        self.pop();
        Figures {
            pushes: self.queue.pushed(),
            most: self.most as u64,
            top: self.top,
            span: self.span,
            stores: most_in(&self.stores),
        }
    }
}

/// Returns the greatest rank since the queue was last empty, after a push.
fn crest(queue: &HeapPifo, crest: u64, rank: u64) -> u64
    ensures { result ≡ (if length queue.now.entries == 0 then rank else max crest rank) }
{
    if queue.len() == 0 {
        rank
    } else {
        crest.max(rank)
    }
}

/// Pushes a rank to the stores, if there are any. The error is out of memory.
fn store(stores: &mut Option<Stores>, rank: u64, value: u64) -> Result<(), AllocError>
    requires few { spills_in stores.old < 2 ^ 62 }
    ensures pushed { OnOk result (stores.new ≡ option_map (store_pushed rank value) stores.old) }
    ensures spills { spills_in stores.new ≤ spills_in stores.old + 1 }
    ensures err { OnErr result (stores.new ≡ stores.old) }
{
    match stores {
        Some(stores) => stores.push(rank, value),
        None => Ok(()),
    }
}

/// Pops a rank from the stores, if there are any.
fn unstore(stores: &mut Option<Stores>, rank: u64, value: u64)
    ensures popped { stores.new ≡ option_map (store_popped rank value) stores.old }
    ensures spills { spills_in stores.new ≡ spills_in stores.old }
{
    if let Some(stores) = stores {
        stores.pop(rank, value);
    }
}

/// Returns the use of the stores, if there are any.
fn most_in(stores: &Option<Stores>) -> Option<StoreUse>
    ensures { result ≡ option_map (λ s. s.most) stores.now }
{
    match stores {
        Some(stores) => Some(stores.most()),
        None => None,
    }
}
