//! Departures as records of a capture.
ghost use Rattle.std.specs.Prelude.{◌≡◌, ◌≤◌, ◌<◌, ◌/◌, ◌%◌, ◌^◌, ℕ, nat_eq, List, length, Option, Some, option_map, is_ok, IsTrue, OnOk, OnErr};
ghost use Rattle.std.proofs.Props.{props};
ghost use Rattle.indexmap.specs.IndexMap.{get};
ghost use Rattle.outside_core.specs.Faults.{Rose};
ghost use Rattle.outside_core.specs.Kept.{KeepsSink};
ghost use Rattle.report_core.specs.Gathered.{Tells, CutsOff};
ghost use Rattle.pcap_defs.specs.Record.{most_captured};
ghost use Rattle.pcap_core.specs.Bytes.{record_bytes};
ghost use Rattle.forward_defs.specs.Sendings.{late};

use indexmap::IndexMap;
use outside_core::{Sink, Stop};
use packet_defs::{Departed, Packet};
use pcap_core::record_front;
use report_core::{Report, WriteFault};
use sched_run::{DepartureRecorder, Recorder};
use std::alloc::{AllocError, Global};

/// The nanoseconds of a second.
const SECOND: u128 = 1_000_000_000;

/// The first timestamp, in nanoseconds, whose seconds need more than 32 bits.
const LATE: u128 = (1 << 32) * SECOND;

/// Writes a record of a packet that starts at this timestamp in nanoseconds.
fn put_sent<K: Sink>(
    gathered: &mut Report,
    sink: &mut K,
    start: u128,
    len: u32,
    bytes: &[u8],
) -> Result<(), WriteFault>
    requires live { IsTrue gathered.old.live }
    requires early { start < late }
    requires short { length bytes.now ≤ most_captured }

    ensures ok { OnOk result (Tells K.written sink.old gathered.old sink.new gathered.new
        (record_bytes (start / 10 ^ 9) (start % 10 ^ 9) len bytes.now)) }
    ensures cut { OnErr result (CutsOff K.written sink.old gathered.old sink.new
        (record_bytes (start / 10 ^ 9) (start % 10 ^ 9) len bytes.now)) }
    ensures kept { KeepsSink K.written K.faults sink.old sink.new }
    ensures cause { OnErr result (Rose (K.faults sink.old) (K.faults sink.new)) }
    ensures live { gathered.new.live ≡ is_ok result }
{
    let seconds = (start / SECOND) as u32;
    let nanos = (start % SECOND) as u32;
    gathered.piece(sink, &record_front(seconds, nanos, bytes.len() as u32, len))?;
    gathered.piece(sink, bytes)
}

/// Writes a record for each departure that a link paces: the timestamp at which it starts on the
/// link, the packet's original length and its captured bytes. Keeps the captured bytes from the
/// packet's arrival until its departure. A departure that starts at 2^32 seconds or later is not
/// recorded, and nothing more can be recorded after it. Records are buffered in memory that is
/// allocated once. They go to the sink when the next one doesn't fit, and at `finish`.
#[derive(Drop)]
pub struct Forwarding {
    held: IndexMap<u64, Vec<u8>>,
    late: bool,
    /// There was memory for the captured bytes of each packet so far.
    whole: bool,
    gathered: Report,
    ghost short: { (n : ℕ) (bytes : List ℕ) → option_map (λ v. v.items) (get nat_eq held n) ≡ Some bytes → length bytes ≤ most_captured } by { Prim.hlevel props },
}

impl Forwarding {
    ghost use Rattle.std.specs.Prelude.{◌≡◌, ◌≤◌, ℕ, [], length, option_map, IfOk, IfSome, OnOk, OnErr};
    ghost use Rattle.outside_core.specs.Written.{Appended};
    ghost use Rattle.report_core.specs.Gathered.{text_of, CutsOff};
    ghost use Rattle.forward_defs.specs.Keeping.{with_bytes, without_bytes};
    ghost use Rattle.sched_capture.specs.Forwarding.{bytes_kept, IsUnused, IsLive};

    /// Returns a recorder that keeps nothing. The error means out of memory.
    pub fn new(alloc: Global) -> Result<Forwarding, AllocError>
        ensures unused { IfOk result IsUnused }
        ensures live { IfOk result IsLive }
    {
        Ok(Forwarding {
            held: IndexMap::new(alloc),
            late: false,
            whole: true,
            gathered: Report::new(alloc)?,
        })
    }

    /// Writes the buffered records. After that the sink has every record.
    pub fn finish<K: Sink>(&mut self, sink: &mut K) -> Result<(), WriteFault>
        requires live { IsLive self.old }

        ensures whole { OnOk result (Appended (text_of (K.written sink.old) self.old.gathered)
            (K.written sink.new) []) }
        ensures cut { OnErr result (CutsOff K.written sink.old self.old.gathered sink.new []) }
        ensures kept { KeepsSink K.written K.faults sink.old sink.new }
        ensures cause { OnErr result (Rose (K.faults sink.old) (K.faults sink.new)) }
        ensures late { self.new.late ≡ self.old.late }
    {
        self.gathered.finish(sink)
    }

    /// Keeps the captured bytes of a packet. The error means out of memory.
    fn keep(&mut self, number: u64, captured: &[u8]) -> Result<(), AllocError>
        requires short { length captured.now ≤ most_captured }

        ensures ok { OnOk result ((n : ℕ) → bytes_kept self.new n ≡
            with_bytes (bytes_kept self.old) number captured.now n) }
        ensures late { self.new.late ≡ self.old.late }
        ensures whole { self.new.whole ≡ self.old.whole }
        ensures gathered { self.new.gathered ≡ self.old.gathered }
    {
        let bytes = Vec::from_slice(*self.held.allocator(), captured)?;
        self.held.insert(number, bytes)?;
        Ok(())
    }

    /// Stops keeping the captured bytes of a packet, and returns them if they were kept.
    fn release(&mut self, number: u64) -> Option<Vec<u8>>
        ensures value { option_map (λ v. v.items) result ≡ bytes_kept self.old number }
        ensures short { IfSome result (λ v. length v.items ≤ most_captured) }
        ensures rest { (n : ℕ) → bytes_kept self.new n ≡ without_bytes (bytes_kept self.old) number
            n }
        ensures late { self.new.late ≡ self.old.late }
        ensures whole { self.new.whole ≡ self.old.whole }
        ensures gathered { self.new.gathered ≡ self.old.gathered }
    {
        self.held.swap_remove(&number)
    }
}

impl Recorder for Forwarding {
    ghost use Rattle.sched_capture.specs.Forwarding.{TellsRecords, CutsRecords, IsLive, is_late_now};
    ghost use Rattle.sched_capture.specs.JoinedRecords.{records_are_joined};

    ghost records = { TellsRecords };

    ghost cuts = { CutsRecords };

    ghost live = { IsLive };

    ghost over = { is_late_now };

    fn arrived<K: Sink>(
        &mut self,
        _sink: &mut K,
        _event: u64,
        packet: &Packet,
        captured: &[u8],
        _leaf: &str,
        _ranks: &[u64],
    ) -> Result<(), Stop> {
        let kept = self.keep(packet.number, captured);
        self.whole = kept.is_ok();
        kept?;
        Ok(())
    }

    fn dropped<K: Sink>(
        &mut self,
        _sink: &mut K,
        _event: u64,
        _packet: &Packet,
        _leaf: &str,
    ) -> Result<(), WriteFault> {
        Ok(())
    }

    fn departed<K: Sink>(
        &mut self,
        sink: &mut K,
        _event: u64,
        departed: &Departed,
        _leaf: &str,
        _ranks: &[u64],
        start: Option<u128>,
    ) -> Result<(), WriteFault> {
        let bytes = self.release(departed.packet);
        let Some(start) = start else {
            return Ok(());
        };
        if start >= LATE {
            self.late = true;
            return Ok(());
        }
        match bytes {
            Some(bytes) => put_sent(&mut self.gathered, sink, start, departed.len, &bytes),
            None => Ok(()),
        }
    }

    fn empty<K: Sink>(&mut self, _sink: &mut K, _event: u64) -> Result<(), WriteFault> {
        Ok(())
    }

    fn over(&self) -> bool {
        self.late
    }

    ghost joined = { records_are_joined };
}

impl DepartureRecorder for Forwarding {}
