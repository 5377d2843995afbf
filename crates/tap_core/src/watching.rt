//! Taps that observe a run.
ghost use Rattle.std.specs.Prelude.{◌≡◌, [], ◌∷◌, List, OnOk, IfOk};
ghost use Rattle.tap_core.specs.Lists.{Entry, Shown, Tracks, departed, dropped, lines_of};
ghost use Rattle.tap_core.specs.Watching.{sight_of, Begins, Shows, AreNoMore};

use crate::kinds::Dropped;
use crate::tap::Tap;
use crate::watch::{Named, keep_named, lines, show_departed, show_dropped, slots};
use packet_defs::Departed;
use std::alloc::{AllocError, Global};

/// Taps of the named kinds that observe a run, each until it is done.
#[derive(Drop)]
pub struct Watching<T: Drop> {
    alloc: Global,
    named: Named,
    /// One for each tap that observes the run, with its line once it is done. While there is none,
    /// nothing is to be passed on.
    pub slots: Vec<Option<Vec<u8>>>,
    taps: Vec<T>,
}

impl<T: Tap> Watching<T> {
    /// Takes the taps that are to observe a run if their kind is named.
    pub fn new(alloc: Global, named: Named, taps: Vec<T>) -> Watching<T>
        ensures named { result.named ≡ named }
        ensures slots { result.slots.items ≡ [] }
        ensures taps { result.taps ≡ taps }
    {
        Watching {
            alloc,
            named,
            slots: Vec::new(alloc),
            taps,
        }
    }

    /// Returns the taps that are left.
    pub fn into_taps(self) -> Vec<T>
        ensures { result ≡ self.taps }
    {
        self.taps
    }

    /// Begins to observe. Taps whose kind isn't named are dropped. The error is out of memory.
    pub fn begin(&mut self) -> Result<(), AllocError>
        ensures begun { OnOk result (Begins (sight_of T.kind_of T.state_of self.old)
            (sight_of T.kind_of T.state_of self.new)) }
        ensures fewer { AreNoMore (sight_of T.kind_of T.state_of self.old)
            (sight_of T.kind_of T.state_of self.new) }
    {
        keep_named(&mut self.taps, self.named);
        self.slots = slots(self.alloc, &self.taps)?;
        Ok(())
    }

    /// Passes a departure to each tap. The error is out of memory for the line of a tap that is
    /// done.
    #[inline(never)]
    pub fn departed(&mut self, packet: &Departed) -> Result<(), AllocError>
        ensures shown { OnOk result (Shows (departed packet.now ∷ [])
            (sight_of T.kind_of T.state_of self.old) (sight_of T.kind_of T.state_of self.new)) }
        ensures fewer { AreNoMore (sight_of T.kind_of T.state_of self.old)
            (sight_of T.kind_of T.state_of self.new) }
    {
        show_departed(self.alloc, &mut self.slots, &mut self.taps, packet)
    }

    /// Passes a drop to each tap. Allocates no memory.
    #[inline(never)]
    pub fn dropped(&mut self, packet: &Dropped)
        ensures shown { Shows (dropped packet.now ∷ [])
            (sight_of T.kind_of T.state_of self.old) (sight_of T.kind_of T.state_of self.new) }
        ensures fewer { AreNoMore (sight_of T.kind_of T.state_of self.old)
            (sight_of T.kind_of T.state_of self.new) }
    {
        show_dropped(&mut self.taps, packet);
    }

    /// Returns the lines of all taps that observed the run, in order. The error is out of memory.
    pub fn lines(&self) -> Result<Vec<u8>, AllocError>
        ensures text { IfOk result (λ text. (all : List Entry)
            → Tracks all (sight_of T.kind_of T.state_of self.now).slots (sight_of T.kind_of T.state_of self.now).taps
            → text.items ≡ lines_of all) }
    {
        lines(self.alloc, &self.slots, &self.taps)
    }
}
