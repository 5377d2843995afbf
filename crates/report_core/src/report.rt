//! A report: lines that are gathered and passed on to the sink.
ghost use Rattle.std.specs.Prelude.{◌≡◌, ◌≤◌, [], length, IsTrue, IfOk, OnOk, OnErr};
ghost use Rattle.outside_core.specs.Kept.{KeepsSink};
ghost use Rattle.outside_core.specs.Written.{Appended};
ghost use Rattle.text_core.specs.Tokens.{most_name};
ghost use Rattle.outside_core.specs.Report.{arrival_line, departure_line, drop_line, empty_line, end_line, fault_line};
ghost use Rattle.report_core.specs.Faults.{word_of};
ghost use Rattle.report_core.specs.Gathered.{limit, text_of, Tells, CutsOff, FailsAtSink};

use crate::buffer::Buffer;
use crate::fault::{FaultKind, WriteFault};
use crate::last::{put_end, put_fault};
use crate::line::{Leading, STARTS, put_array, put_name, put_next, put_ranks, put_start};
use outside_core::Sink;
use std::alloc::{AllocError, Global};
use std::marker::Model;

/// Lines for a sink. They are gathered in memory that is allocated once. They are written when they
/// exceed its limit, and at `finish`. The report is live until a write fails.
#[derive(Drop)]
pub struct Report {
    buffer: Buffer,
    events: Leading<100>,
    arrivals: Leading<100>,
    departures: Leading<100>,
    starts: Leading<STARTS>,
}

impl Model for Report {
    ghost use Rattle.std.specs.Prelude.{take};
    ghost use Rattle.report_core.specs.Gathered.{Gathered, HasRoom};

    ghost Value = { Gathered };

    ghost view = { λ r. record { unwritten = take r.buffer.held r.buffer.bytes.items; live = r.buffer.live } };

    ghost invariant = { λ r. HasRoom r.buffer.held r.buffer.bytes.items };
}

impl Report {
    pub fn new(alloc: Global) -> Result<Report, AllocError>
        ensures empty { IfOk result (λ report. report.unwritten ≡ []) }
        ensures live { IfOk result (λ report. IsTrue report.live) }
    {
        Ok(Report {
            buffer: Buffer::new(alloc)?,
            events: Leading::new(),
            arrivals: Leading::new(),
            departures: Leading::new(),
            starts: Leading::new(),
        })
    }

    pub fn live(&self) -> bool
        ensures { result ≡ self.now.live }
    {
        self.buffer.live
    }

    /// Reports a packet that arrived at a leaf, with the ranks pushed from the root down.
    #[inline(always)]
    pub fn arrived<K: Sink>(
        &mut self,
        sink: &mut K,
        event: u64,
        packet: u64,
        leaf: &str,
        ranks: &[u64],
    ) -> Result<(), WriteFault>
        requires live { IsTrue self.old.live }
        requires leaf { length leaf.now ≤ most_name }
        requires few { length ranks.now ≤ 65 }

        ensures ok { OnOk result (Tells K.written sink.old self.old sink.new self.new
            (arrival_line event packet leaf.now ranks.now)) }
        ensures cut { OnErr result (CutsOff K.written sink.old self.old sink.new
            (arrival_line event packet leaf.now ranks.now)) }
        ensures kept { KeepsSink K.written K.faults sink.old sink.new }
        ensures fails { FailsAtSink K.faults result sink.old sink.new self.new }
        ensures bounded { length self.new.unwritten ≤ limit }
    {
        let line = self.buffer.bytes.as_mut_slice();
        let event_at = put_array(line, self.buffer.held, *b"a ");
        let packet_at = put_next(&mut self.events, line, event_at, event, b' ');
        let leaf_at = put_next(&mut self.arrivals, line, packet_at, packet, b' ');
        let ranks_at = put_name(line, leaf_at, leaf);
        let ranks_end = put_ranks(line, ranks_at, ranks);
        let end = put_array(line, ranks_end, *b"\n");
        self.buffer.close(sink, end)
    }

    /// Reports a packet that departed from a leaf, with the ranks popped from the root down. The
    /// start is in nanoseconds.
    #[inline(always)]
    pub fn departed<K: Sink>(
        &mut self,
        sink: &mut K,
        event: u64,
        packet: u64,
        leaf: &str,
        ranks: &[u64],
        start: Option<u128>,
    ) -> Result<(), WriteFault>
        requires live { IsTrue self.old.live }
        requires leaf { length leaf.now ≤ most_name }
        requires few { length ranks.now ≤ 65 }

        ensures ok { OnOk result (Tells K.written sink.old self.old sink.new self.new
            (departure_line event packet leaf.now ranks.now start)) }
        ensures cut { OnErr result (CutsOff K.written sink.old self.old sink.new
            (departure_line event packet leaf.now ranks.now start)) }
        ensures kept { KeepsSink K.written K.faults sink.old sink.new }
        ensures fails { FailsAtSink K.faults result sink.old sink.new self.new }
        ensures bounded { length self.new.unwritten ≤ limit }
    {
        let line = self.buffer.bytes.as_mut_slice();
        let event_at = put_array(line, self.buffer.held, *b"d ");
        let packet_at = put_next(&mut self.events, line, event_at, event, b' ');
        let leaf_at = put_next(&mut self.departures, line, packet_at, packet, b' ');
        let ranks_at = put_name(line, leaf_at, leaf);
        let mut end = put_ranks(line, ranks_at, ranks);
        if let Some(start) = start {
            end = put_start(&mut self.starts, line, end, start);
        }
        let end = put_array(line, end, *b"\n");
        self.buffer.close(sink, end)
    }

    /// Reports a departure that found nothing to send.
    pub fn empty<K: Sink>(&mut self, sink: &mut K, event: u64) -> Result<(), WriteFault>
        requires live { IsTrue self.old.live }

        ensures ok { OnOk result (Tells K.written sink.old self.old sink.new self.new
            (empty_line event)) }
        ensures cut { OnErr result (CutsOff K.written sink.old self.old sink.new
            (empty_line event)) }
        ensures kept { KeepsSink K.written K.faults sink.old sink.new }
        ensures fails { FailsAtSink K.faults result sink.old sink.new self.new }
        ensures bounded { length self.new.unwritten ≤ limit }
    {
        let line = self.buffer.bytes.as_mut_slice();
        let event_at = put_array(line, self.buffer.held, *b"e ");
        let end = put_next(&mut self.events, line, event_at, event, b'\n');
        self.buffer.close(sink, end)
    }

    /// Reports a packet that was dropped at a full leaf.
    pub fn dropped<K: Sink>(
        &mut self,
        sink: &mut K,
        event: u64,
        packet: u64,
        leaf: &str,
    ) -> Result<(), WriteFault>
        requires live { IsTrue self.old.live }
        requires leaf { length leaf.now ≤ most_name }

        ensures ok { OnOk result (Tells K.written sink.old self.old sink.new self.new
            (drop_line event packet leaf.now)) }
        ensures cut { OnErr result (CutsOff K.written sink.old self.old sink.new
            (drop_line event packet leaf.now)) }
        ensures kept { KeepsSink K.written K.faults sink.old sink.new }
        ensures fails { FailsAtSink K.faults result sink.old sink.new self.new }
        ensures bounded { length self.new.unwritten ≤ limit }
    {
        let line = self.buffer.bytes.as_mut_slice();
        let event_at = put_array(line, self.buffer.held, *b"x ");
        let packet_at = put_next(&mut self.events, line, event_at, event, b' ');
        let leaf_at = put_next(&mut self.arrivals, line, packet_at, packet, b' ');
        let leaf_end = put_name(line, leaf_at, leaf);
        let end = put_array(line, leaf_end, *b"\n");
        self.buffer.close(sink, end)
    }

    /// Reports the end of the run: how many packets were pushed and popped, how many departures
    /// found none, how many packets are queued and unsent, and how many were dropped, if that is
    /// shown.
    pub fn end<K: Sink>(
        &mut self,
        sink: &mut K,
        pushed: u64,
        popped: u64,
        empty: u64,
        held: u64,
        unsent: u64,
        dropped: Option<u64>,
    ) -> Result<(), WriteFault>
        requires live { IsTrue self.old.live }

        ensures ok { OnOk result (Tells K.written sink.old self.old sink.new self.new
            (end_line pushed popped empty held unsent dropped)) }
        ensures cut { OnErr result (CutsOff K.written sink.old self.old sink.new
            (end_line pushed popped empty held unsent dropped)) }
        ensures kept { KeepsSink K.written K.faults sink.old sink.new }
        ensures fails { FailsAtSink K.faults result sink.old sink.new self.new }
        ensures bounded { length self.new.unwritten ≤ limit }
    {
        let end = put_end(
            &mut self.buffer.bytes,
            self.buffer.held,
            pushed,
            popped,
            empty,
            held,
            unsent,
            dropped,
        );
        self.buffer.close(sink, end)
    }

    /// Reports a rejected input. The position (`place`) is a line, record or event number, or 0 if
    /// there is none.
    pub fn fault<K: Sink>(
        &mut self,
        sink: &mut K,
        kind: FaultKind,
        code: u32,
        place: u64,
    ) -> Result<(), WriteFault>
        requires live { IsTrue self.old.live }

        ensures ok { OnOk result (Tells K.written sink.old self.old sink.new self.new
            (fault_line (word_of kind) code place)) }
        ensures cut { OnErr result (CutsOff K.written sink.old self.old sink.new
            (fault_line (word_of kind) code place)) }
        ensures kept { KeepsSink K.written K.faults sink.old sink.new }
        ensures fails { FailsAtSink K.faults result sink.old sink.new self.new }
        ensures bounded { length self.new.unwritten ≤ limit }
    {
        let end = put_fault(&mut self.buffer.bytes, self.buffer.held, kind, code, place);
        self.buffer.close(sink, end)
    }

    /// Adds any number of bytes, unchanged.
    pub fn piece<K: Sink>(&mut self, sink: &mut K, bytes: &[u8]) -> Result<(), WriteFault>
        requires live { IsTrue self.old.live }

        ensures ok { OnOk result (Tells K.written sink.old self.old sink.new self.new bytes.now) }
        ensures cut { OnErr result (CutsOff K.written sink.old self.old sink.new bytes.now) }
        ensures kept { KeepsSink K.written K.faults sink.old sink.new }
        ensures fails { FailsAtSink K.faults result sink.old sink.new self.new }
        ensures bounded { length self.new.unwritten ≤ limit }
    {
        self.buffer.put_or_send(sink, bytes)
    }

    /// Writes the bytes held. The sink then has the whole text.
    pub fn finish<K: Sink>(&mut self, sink: &mut K) -> Result<(), WriteFault>
        requires live { IsTrue self.old.live }

        ensures ok { OnOk result (Tells K.written sink.old self.old sink.new self.new []) }
        ensures cut { OnErr result (CutsOff K.written sink.old self.old sink.new []) }
        ensures kept { KeepsSink K.written K.faults sink.old sink.new }
        ensures fails { FailsAtSink K.faults result sink.old sink.new self.new }
        ensures whole { OnOk result (Appended (text_of (K.written sink.old) self.old)
            (K.written sink.new) []) }
        ensures none_left { OnOk result (self.new.unwritten ≡ []) }
    {
        self.buffer.flush(sink)
    }
}
