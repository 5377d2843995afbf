//! The tap that stores the numbers of the first packets to depart.
ghost use Rattle.std.specs.Prelude.{◌≡◌, ◌≤◌, vec_capacity, IfOk};
ghost use Rattle.tap_core.specs.declared.kinds.TapKind.TheVariants.{First};
ghost use Rattle.tap_core.specs.Steps.{first_state, max_limit};

use crate::kinds::{Dropped, Seen, TapKind};
use crate::line::put_line;
use crate::tap::Tap;
use packet_defs::Departed;
use std::alloc::{AllocError, Global};

/// The greatest number of packet numbers that a tap stores.
pub const MAX_LIMIT: u32 = 64;

/// Stores the numbers of the first packets to depart, up to a limit.
#[derive(Drop)]
pub struct FirstTap {
    limit: u32,
    seen: Vec<u64>,
    ghost room: { limit ≤ vec_capacity seen },
}

impl FirstTap {
    ghost use Rattle.tap_core.specs.Held.{first_kind, numbers_seen};

    /// Returns a tap that has seen nothing. All its memory is allocated here; the error is out of
    /// memory.
    pub fn new(alloc: Global, limit: u32) -> Result<FirstTap, AllocError>
        requires { limit ≤ max_limit }
        ensures kind { IfOk result (λ tap. first_kind tap ≡ First limit) }
        ensures state { IfOk result (λ tap. numbers_seen tap ≡ first_state (First limit)) }
    {
        Ok(FirstTap {
            limit,
            seen: Vec::with_capacity(alloc, limit as usize)?,
        })
    }
}

impl Tap for FirstTap {
    ghost use Rattle.tap_core.specs.Held.{first_kind, numbers_seen};

    ghost kind_of = { first_kind };

    ghost state_of = { numbers_seen };

    fn kind(&self) -> TapKind {
        TapKind::First(self.limit)
    }

    fn see(&mut self, departed: &Departed) -> Seen {
        let limit = self.limit as usize;
        if self.seen.len() < limit {
            self.seen.push_reserved(departed.packet);
        }
        if self.seen.len() >= limit {
            Seen::Done
        } else {
            Seen::More
        }
    }

    fn lose(&mut self, _dropped: &Dropped) {}

    fn say(&self, into: &mut Vec<u8>) -> Result<(), AllocError> {
        put_line(into, self.kind().name(), &self.seen)
    }
}
