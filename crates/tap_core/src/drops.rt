//! The tap that counts dropped packets and their bytes.
ghost use Rattle.std.specs.Prelude.{◌≡◌};
ghost use Rattle.tap_core.specs.Steps.{first_state};

use crate::kinds::{Dropped, Seen, TapKind};
use crate::line::put_line;
use crate::tally::Tally;
use crate::tap::Tap;
use packet_defs::Departed;
use std::alloc::AllocError;

/// Counts dropped packets and their bytes.
#[derive(Drop)]
pub struct DropsTap {
    tally: Tally,
}

impl DropsTap {
    ghost use Rattle.tap_core.specs.declared.kinds.TapKind.TheVariants.{Drops};
    ghost use Rattle.tap_core.specs.Held.{drops_state};

    /// Returns a tap that has counted nothing.
    pub fn new() -> DropsTap
        ensures { drops_state result ≡ first_state Drops }
    {
        DropsTap {
            tally: Tally::new(),
        }
    }
}

impl Tap for DropsTap {
    ghost use Rattle.tap_core.specs.declared.kinds.TapKind.TheVariants.{Drops};
    ghost use Rattle.tap_core.specs.Held.{drops_state};

    ghost kind_of = { λ _. Drops };

    ghost state_of = { drops_state };

    fn kind(&self) -> TapKind {
        TapKind::Drops
    }

    fn see(&mut self, _departed: &Departed) -> Seen {
        Seen::More
    }

    fn lose(&mut self, dropped: &Dropped) {
        self.tally.count(dropped.len);
    }

    fn say(&self, into: &mut Vec<u8>) -> Result<(), AllocError> {
        put_line(into, TapKind::Drops.name(), &self.tally.numbers())
    }
}
