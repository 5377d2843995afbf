//! A link that sends one packet after another, and how long each takes.
ghost use Rattle.std.specs.Prelude.{◌≡◌, ◌+◌, ◌<◌, ◌^◌, ◌↔◌, IsTrue, max};
ghost use Rattle.sched_defs.specs.SendTime.{send_time, plain_rate, IsByteRate, IsRate};

use sched_defs::LinkRate;
use std::marker::Model;

/// Nanoseconds per second.
const SECOND: u64 = 1_000_000_000;

/// The maximum rate, in bytes per second. The minimum is 1.
pub const MOST_RATE: u64 = 1_000_000_000_000;

/// The maximum overhead of a packet, in bytes.
pub const MOST_OVERHEAD: u32 = 65_535;

/// Returns the nanoseconds that a packet of `len` bytes takes at a rate in bytes per second,
/// rounded up.
pub fn send_time(len: u32, rate: u64) -> u64
    requires { IsByteRate rate }
    ensures { result ≡ send_time len (plain_rate rate) }
{
    send_time_at(len, LinkRate::plain(rate))
}

/// Returns the nanoseconds that a packet of `len` bytes and the overhead take on a link, rounded
/// up.
pub fn send_time_at(len: u32, rate: LinkRate) -> u64
    requires { IsRate rate }
    ensures { result ≡ send_time len rate }
{
    ((len as u64 + rate.overhead as u64) * SECOND).div_ceil(rate.bytes)
}

/// A link that sends one packet after another. Contracts see it as the timestamp from which it is
/// free, in nanoseconds.
#[derive(Drop)]
pub struct Link {
    free: u128,
}

impl Model for Link {
    ghost use Rattle.std.specs.Prelude.{ℕ};

    ghost Value = { ℕ };

    ghost view = { λ l. l.free };
}

impl Link {
    pub fn new() -> Link
        ensures { result ≡ 0 }
    {
        Link { free: 0 }
    }

    /// Returns the timestamp from which the link is free, in nanoseconds.
    pub fn free(&self) -> u128
        ensures { result ≡ self.now }
    {
        self.free
    }

    /// Returns whether the link is free before a timestamp (`moment`) in nanoseconds.
    pub fn due(&self, moment: u64) -> bool
        ensures { IsTrue result ↔ (self.now < moment) }
    {
        self.free < moment as u128
    }

    /// Leaves the link idle until a timestamp (`moment`) in nanoseconds.
    pub fn idle(&mut self, moment: u64)
        ensures { self.new ≡ max self.old moment }
    {
        self.free = self.free.max(moment as u128);
    }

    /// Sends a packet of `len` bytes at a rate in bytes per second, and returns its start in
    /// nanoseconds.
    pub fn send(&mut self, len: u32, rate: u64) -> u128
        requires early { self.old < 2 ^ 126 }
        requires rate { IsByteRate rate }
        ensures start { result ≡ self.old }
        ensures free { self.new ≡ self.old + send_time len (plain_rate rate) }
    {
        self.send_at(len, LinkRate::plain(rate))
    }

    /// Sends a packet of `len` bytes and the overhead, and returns its start in nanoseconds.
    pub fn send_at(&mut self, len: u32, rate: LinkRate) -> u128
        requires early { self.old < 2 ^ 126 }
        requires rate { IsRate rate }
        ensures start { result ≡ self.old }
        ensures free { self.new ≡ self.old + send_time len rate }
    {
        let start = self.free;
        self.free += send_time_at(len, rate) as u128;
        start
    }
}
