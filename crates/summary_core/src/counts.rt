//! The sums of one group of packets.
ghost use Rattle.std.specs.Prelude.{◌≡◌, ◌<◌, ◌^◌, IsTrue};
ghost use Rattle.summary_core.specs.Counting.{IsRoomy, no_counts, with_arrival, with_departure, with_drop, with_event, with_times, span_of, throughput_of, mean_delay, jitter_of};

use crate::event::{PacketEvent, Times};

/// The sums of one group of packets: of a leaf, of a class, or of all.
#[derive(Clone, Copy, PartialEq, Eq, Debug)]
pub struct Counts {
    /// The number of packets that arrived at their leaf, without the dropped ones.
    pub arrived: u64,
    pub departed: u64,
    pub dropped: u64,
    /// The bytes of the packets that departed, by their original lengths.
    pub bytes: u64,
    /// The number of queued packets, and their bytes.
    pub queued: u64,
    pub queued_bytes: u64,
    /// The maximum backlog so far, in packets and in bytes.
    pub most_queued: u64,
    pub most_queued_bytes: u64,
    /// The timestamp of the first packet that arrived, in nanoseconds.
    pub first: Option<u64>,
    /// The latest time at which a packet was sent, in nanoseconds.
    pub finish: u128,
    /// The number of departures with a delay, and the sum of these delays in nanoseconds.
    pub delays: u64,
    pub delay_sum: u128,
    /// The delay of the last departure that has one.
    pub last: Option<u64>,
    /// The sum of the differences between consecutive delays, in nanoseconds.
    pub jitter_sum: u128,
}

/// A sum of 64 bits stays below this number.
const MOST: u64 = 1 << 63;

/// A sum of 128 bits stays below this number.
const MOST_LONG: u128 = 1 << 127;

impl Counts {
    /// Returns the sums of no packet.
    pub fn new() -> Counts
        ensures { result ≡ no_counts }
    {
        Counts {
            arrived: 0,
            departed: 0,
            dropped: 0,
            bytes: 0,
            queued: 0,
            queued_bytes: 0,
            most_queued: 0,
            most_queued_bytes: 0,
            first: None,
            finish: 0,
            delays: 0,
            delay_sum: 0,
            last: None,
            jitter_sum: 0,
        }
    }

    /// Returns whether each sum has room for one more packet. The bits of all sums of one width are
    /// joined, because comparing each sum takes longer.
    #[inline(always)]
    fn has_room(&self) -> bool
        ensures { IsTrue result → IsRoomy self.now }
    {
        let packets = self.arrived | self.departed | self.dropped | self.queued | self.delays;
        let bytes = self.bytes | self.queued_bytes;
        let times = self.delay_sum | self.jitter_sum;
        (packets | bytes) < MOST && times < MOST_LONG
    }

    #[inline(always)]
    fn arrive(&mut self, len: u32, moment: u64)
        requires { IsRoomy self.old }
        ensures { self.new ≡ with_arrival len moment self.old }
    {
        self.arrived += 1;
        self.queued += 1;
        self.queued_bytes += u64::from(len);
        self.most_queued = self.most_queued.max(self.queued);
        self.most_queued_bytes = self.most_queued_bytes.max(self.queued_bytes);
        if self.first.is_none() {
            self.first = Some(moment);
        }
    }

    #[inline(always)]
    fn take_times(&mut self, times: Times)
        requires { IsRoomy self.old }
        ensures { self.new ≡ with_times times self.old }
    {
        if let Some(last) = self.last {
            self.jitter_sum += u128::from(last.abs_diff(times.delay));
        }
        self.last = Some(times.delay);
        self.delays += 1;
        self.delay_sum += u128::from(times.delay);
        self.finish = self.finish.max(times.finish);
    }

    #[inline(always)]
    fn depart(&mut self, len: u32, times: Option<Times>)
        requires { IsRoomy self.old }
        ensures { self.new ≡ with_departure len times self.old }
    {
        if let Some(times) = times {
            self.take_times(times);
        }
        self.departed += 1;
        self.bytes += u64::from(len);
        self.queued = self.queued.saturating_sub(1);
        self.queued_bytes = self.queued_bytes.saturating_sub(u64::from(len));
    }

    /// Returns the span on a link in nanoseconds, from the timestamp of the first packet that
    /// arrived to the last finish.
    pub fn span(&self) -> Option<u128>
        ensures { result ≡ span_of self.now }
    {
        if self.delays == 0 {
            return None;
        }
        let first = self.first?;
        Some(self.finish.saturating_sub(u128::from(first)))
    }

    /// Returns the throughput on a link in bytes per second, rounded down.
    pub fn throughput(&self) -> Option<u128>
        ensures { result ≡ throughput_of self.now }
    {
        let span = self.span()?;
        if span == 0 {
            return None;
        }
        Some(u128::from(self.bytes) * 1_000_000_000 / span)
    }

    /// Returns the mean delay in nanoseconds, rounded down, or 0 if there is no delay.
    pub fn mean_delay(&self) -> u128
        ensures { result ≡ mean_delay self.now }
    {
        self.delay_sum / u128::from(self.delays.max(1))
    }

    /// Returns the jitter in nanoseconds, rounded down, if there are two delays or more.
    pub fn jitter(&self) -> Option<u128>
        ensures { result ≡ jitter_of self.now }
    {
        if self.delays < 2 {
            return None;
        }
        Some(self.jitter_sum / u128::from(self.delays - 1))
    }

    /// Counts an event of a packet, and returns whether the sums had room for it. A run of less
    /// than 2^32 packets always has room.
    #[inline(always)]
    pub fn add(&mut self, event: PacketEvent) -> bool
        ensures { IsTrue result → self.new ≡ with_event event self.old }
    {
        let roomy = self.has_room();
        if roomy {
            match event {
                PacketEvent::Arrived(len, moment) => self.arrive(len, moment),
                PacketEvent::Departed(len, times) => self.depart(len, times),
                PacketEvent::Dropped => self.dropped += 1,
            }
        }
        roomy
    }
}
