//! The tap that counts packets that depart out of order.
ghost use Rattle.std.specs.Prelude.{◌≡◌};
ghost use Rattle.tap_core.specs.Steps.{first_state};

use crate::kinds::{Dropped, Seen, TapKind};
use crate::line::put_line;
use crate::tally::sum_up_to_max;
use crate::tap::Tap;
use packet_defs::Departed;
use std::alloc::AllocError;

/// Counts packets that depart after a packet with the same or a greater number.
#[derive(Drop)]
pub struct OrderTap {
    greatest: u64,
    late: u64,
}

impl OrderTap {
    ghost use Rattle.tap_core.specs.declared.kinds.TapKind.TheVariants.{Order};
    ghost use Rattle.tap_core.specs.Held.{order_state};

    /// Returns a tap that has counted nothing.
    pub fn new() -> OrderTap
        ensures { order_state result ≡ first_state Order }
    {
        OrderTap {
            greatest: 0,
            late: 0,
        }
    }
}

impl Tap for OrderTap {
    ghost use Rattle.tap_core.specs.declared.kinds.TapKind.TheVariants.{Order};
    ghost use Rattle.tap_core.specs.Held.{order_state};

    ghost kind_of = { λ _. Order };

    ghost state_of = { order_state };

    fn kind(&self) -> TapKind {
        TapKind::Order
    }

    fn see(&mut self, departed: &Departed) -> Seen {
        if departed.packet > self.greatest {
            self.greatest = departed.packet;
        } else {
            self.late = sum_up_to_max(self.late, 1);
        }
        Seen::More
    }

    fn lose(&mut self, _dropped: &Dropped) {}

    fn say(&self, into: &mut Vec<u8>) -> Result<(), AllocError> {
        put_line(into, TapKind::Order.name(), &[self.late, self.greatest])
    }
}
