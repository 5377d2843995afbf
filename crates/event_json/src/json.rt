//! A report whose lines are JSON.
ghost use Rattle.std.specs.Prelude.{◌≡◌, IsTrue, is_ok, IfOk, IfSome, OnOk, OnErr};
ghost use Rattle.std.proofs.Props.{props};
ghost use Rattle.outside_core.specs.Faults.{Rose};
ghost use Rattle.outside_core.specs.Kept.{KeepsSink};
ghost use Rattle.outside_core.specs.Written.{Appended};
ghost use Rattle.report_core.specs.Gathered.{text_of, Tells, CutsOff};
ghost use Rattle.sched_defs.specs.SendTime.{IsRate};
ghost use Rattle.event_json.specs.Json.{AreCapped, times_of, json_end};

use crate::counts::Counts;
use crate::line::Line;
use crate::times::{Times, times_of};
use outside_core::Sink;
use report_core::{Report, WriteFault};
use sched_defs::{Ending, LinkRate};
use std::alloc::{AllocError, Global};

/// Writes each outcome of a run as one line of JSON. The lines are buffered in memory that is
/// allocated once. They go to the sink when the buffer is full, and at `finish`.
#[derive(Drop)]
pub struct JsonReport {
    pub(crate) report: Report,
    pub(crate) line: Line,
    pub(crate) counts: Counts,
    rate: Option<LinkRate>,
    ghost rated: { IfSome rate IsRate } by { Prim.hlevel props },
    ghost counted: { AreCapped counts },
}

impl JsonReport {
    ghost use Rattle.event_json.specs.JsonReports.{RecordsNothing};

    /// Returns a report without lines. If a link of this rate paces the run, departures are written
    /// with their start and finish. The error means out of memory.
    pub fn new(alloc: Global, rate: Option<LinkRate>) -> Result<JsonReport, AllocError>
        requires rate { IfSome rate IsRate }
        ensures nothing { IfOk result (RecordsNothing rate) }
    {
        Ok(JsonReport {
            report: Report::new(alloc)?,
            line: Line::new(alloc)?,
            counts: Counts {
                arrived: 0,
                departed: 0,
                dropped: 0,
                empty: 0,
            },
            rate,
        })
    }

    /// Returns the times of a packet of `len` bytes, if a link paces its departure.
    pub(crate) fn times(&self, len: u32, start: Option<u128>) -> Option<Times>
        ensures { result ≡ times_of self.now.rate len start }
    {
        times_of(self.rate, len, start)
    }

    /// Adds the line to the text.
    pub(crate) fn send<K: Sink>(&mut self, sink: &mut K) -> Result<(), WriteFault>
        requires live { IsTrue self.old.report.live }

        ensures ok { OnOk result (Tells K.written sink.old self.old.report sink.new
            self.new.report self.old.line) }
        ensures cut { OnErr result (CutsOff K.written sink.old self.old.report sink.new
            self.old.line) }
        ensures kept { KeepsSink K.written K.faults sink.old sink.new }
        ensures cause { OnErr result (Rose (K.faults sink.old) (K.faults sink.new)) }
        ensures live { self.new.report.live ≡ is_ok result }
        ensures counts { self.new.counts ≡ self.old.counts }
        ensures rate { self.new.rate ≡ self.old.rate }
    {
        self.report.piece(sink, self.line.bytes())
    }

    /// Writes the last line and the buffered ones. After that the sink has every line.
    pub fn finish<K: Sink>(&mut self, sink: &mut K, ending: Ending) -> Result<(), WriteFault>
        requires live { IsTrue self.old.report.live }

        ensures whole { OnOk result (Appended (text_of (K.written sink.old) self.old.report)
            (K.written sink.new) (json_end self.old.counts ending)) }
        ensures cut { OnErr result (CutsOff K.written sink.old self.old.report sink.new
            (json_end self.old.counts ending)) }
        ensures kept { KeepsSink K.written K.faults sink.old sink.new }
        ensures cause { OnErr result (Rose (K.faults sink.old) (K.faults sink.new)) }
    {
        self.line.ending(self.counts, ending);
        self.send(sink)?;
        self.report.finish(sink)
    }
}
