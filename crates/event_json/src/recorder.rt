//! A JSON report as a recorder: it records each outcome as a line.
ghost use Rattle.std.specs.Prelude.{IsTrue, false};
ghost use Rattle.event_json.specs.Recording.{AddsJson, CutsJson, json_lines_are_joined};

use crate::json::JsonReport;
use outside_core::{Sink, Stop};
use packet_defs::{Departed, Packet};
use report_core::WriteFault;
use sched_run::{DepartureRecorder, Recorder};

impl Recorder for JsonReport {
    ghost records = { λ _. AddsJson };

    ghost cuts = { λ _. CutsJson };

    ghost live = { λ r. IsTrue r.report.live };

    ghost over = { λ _. false };

    fn arrived<K: Sink>(
        &mut self,
        sink: &mut K,
        event: u64,
        packet: &Packet,
        _captured: &[u8],
        leaf: &str,
        ranks: &[u64],
    ) -> Result<(), Stop> {
        self.line.arrival(event, packet, leaf, ranks);
        self.counts.arrived = self.counts.arrived.saturating_add(1);
        self.send(sink)?;
        Ok(())
    }

    fn dropped<K: Sink>(
        &mut self,
        sink: &mut K,
        event: u64,
        packet: &Packet,
        leaf: &str,
    ) -> Result<(), WriteFault> {
        self.line.dropped(event, packet, leaf);
        self.counts.dropped = self.counts.dropped.saturating_add(1);
        self.send(sink)
    }

    fn departed<K: Sink>(
        &mut self,
        sink: &mut K,
        event: u64,
        departed: &Departed,
        leaf: &str,
        ranks: &[u64],
        start: Option<u128>,
    ) -> Result<(), WriteFault> {
        let times = self.times(departed.len, start);
        self.line.departure(event, departed, leaf, ranks, times);
        self.counts.departed = self.counts.departed.saturating_add(1);
        self.send(sink)
    }

    fn empty<K: Sink>(&mut self, sink: &mut K, event: u64) -> Result<(), WriteFault> {
        self.line.empty(event);
        self.counts.empty = self.counts.empty.saturating_add(1);
        self.send(sink)
    }

    fn over(&self) -> bool {
        false
    }

    ghost joined = { λ _. json_lines_are_joined };
}

impl DepartureRecorder for JsonReport {}
