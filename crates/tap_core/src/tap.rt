//! The trait of taps.
ghost use Rattle.std.specs.Prelude.{◌≡◌, ◌↔◌, ◌++◌, ℕ, List, IsTrue, OnOk, OnErr};
ghost use Rattle.tap_core.specs.declared.kinds.TapKind.{TapKind};
ghost use Rattle.tap_core.specs.Steps.{departure_step, drop_step, is_full};
ghost use Rattle.tap_core.specs.Lines.{line};

use crate::kinds::{Dropped, Seen, TapKind};
use packet_defs::Departed;
use std::alloc::AllocError;

/// Observes the packets that depart and the packets that are dropped.
pub trait Tap: Drop {
    /// The kind of the tap.
    ghost kind_of: { Self → TapKind };

    /// The state of the tap: its counts so far.
    ghost state_of: { Self → List ℕ };

    /// Returns the kind of the tap.
    fn kind(&self) -> TapKind
        ensures { result ≡ kind_of self.now };

    /// Observes a packet that departed. Allocates no memory.
    fn see(&mut self, departed: &Departed) -> Seen
        ensures kind { kind_of self.new ≡ kind_of self.old }
        ensures state { state_of self.new ≡ departure_step (kind_of self.old) departed.now
            (state_of self.old) }
        ensures done { (result ≡ Seen.Done) ↔ IsTrue (is_full (kind_of self.new)
            (state_of self.new)) };

    /// Observes a packet that was dropped. Allocates no memory.
    fn lose(&mut self, dropped: &Dropped)
        ensures kind { kind_of self.new ≡ kind_of self.old }
        ensures state { state_of self.new ≡ drop_step (kind_of self.old) dropped.now
            (state_of self.old) };

    /// Appends its line. The error is out of memory.
    fn say(&self, into: &mut Vec<u8>) -> Result<(), AllocError>
        ensures ok { OnOk result (into.new.items ≡ into.old.items ++ line (kind_of self.now)
            (state_of self.now)) }
        ensures err { OnErr result (into.new.items ≡ into.old.items) };
}

impl Tap for Box<dyn Tap> {
    ghost kind_of = { λ b. (Tap-box b).kind_of b.value };

    ghost state_of = { λ b. (Tap-box b).state_of b.value };

    fn kind(&self) -> TapKind {
        (**self).kind()
    }

    fn see(&mut self, departed: &Departed) -> Seen {
        (**self).see(departed)
    }

    fn lose(&mut self, dropped: &Dropped) {
        (**self).lose(dropped);
    }

    fn say(&self, into: &mut Vec<u8>) -> Result<(), AllocError> {
        (**self).say(into)
    }
}
