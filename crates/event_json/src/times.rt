//! The times of a departure on a link.
ghost use Rattle.std.specs.Prelude.{◌≡◌, IfSome};
ghost use Rattle.sched_defs.specs.SendTime.{IsRate};
ghost use Rattle.event_json.specs.Json.{times_of};

use events_core::send_time_at;
use sched_defs::LinkRate;

/// The start and the finish of a departure on a link, in nanoseconds.
#[derive(Clone, Copy)]
pub struct Times {
    pub start: u128,
    pub finish: u128,
}

/// Returns the times of a packet of `len` bytes, if a link paces its departure.
pub fn times_of(rate: Option<LinkRate>, len: u32, start: Option<u128>) -> Option<Times>
    requires { IfSome rate IsRate }
    ensures { result ≡ times_of rate len start }
{
    let (Some(rate), Some(start)) = (rate, start) else {
        return None;
    };
    let finish = start.saturating_add(u128::from(send_time_at(len, rate)));
    Some(Times { start, finish })
}
