//! The tap that counts departed packets and their bytes.
ghost use Rattle.std.specs.Prelude.{◌≡◌};
ghost use Rattle.tap_core.specs.Steps.{first_state};

use crate::kinds::{Dropped, Seen, TapKind};
use crate::line::put_line;
use crate::tally::Tally;
use crate::tap::Tap;
use packet_defs::Departed;
use std::alloc::AllocError;

/// Counts departed packets and their bytes.
#[derive(Drop)]
pub struct BytesTap {
    tally: Tally,
}

impl BytesTap {
    ghost use Rattle.tap_core.specs.declared.kinds.TapKind.TheVariants.{Bytes};
    ghost use Rattle.tap_core.specs.Held.{bytes_state};

    /// Returns a tap that has counted nothing.
    pub fn new() -> BytesTap
        ensures { bytes_state result ≡ first_state Bytes }
    {
        BytesTap {
            tally: Tally::new(),
        }
    }
}

impl Tap for BytesTap {
    ghost use Rattle.tap_core.specs.declared.kinds.TapKind.TheVariants.{Bytes};
    ghost use Rattle.tap_core.specs.Held.{bytes_state};

    ghost kind_of = { λ _. Bytes };

    ghost state_of = { bytes_state };

    fn kind(&self) -> TapKind {
        TapKind::Bytes
    }

    fn see(&mut self, departed: &Departed) -> Seen {
        self.tally.count(departed.len);
        Seen::More
    }

    fn lose(&mut self, _dropped: &Dropped) {}

    fn say(&self, into: &mut Vec<u8>) -> Result<(), AllocError> {
        put_line(into, TapKind::Bytes.name(), &self.tally.numbers())
    }
}
