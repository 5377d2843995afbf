//! A report as a recorder: it records each outcome as a line.
ghost use Rattle.std.specs.Prelude.{◌≡◌, None, IsTrue, false, is_ok, OnOk, OnErr};
ghost use Rattle.outside_core.specs.Faults.{Rose};
ghost use Rattle.outside_core.specs.Kept.{KeepsSink};
ghost use Rattle.report_core.specs.Gathered.{Tells, CutsOff};
ghost use Rattle.sched_defs.specs.Events.{Depart};
ghost use Rattle.sched_core.specs.Standing.{ForEachState};
ghost use Rattle.sched_run.specs.Frames.{CanDepart};
ghost use Rattle.sched_run.specs.Lines.{adds_lines, cuts_lines, lines_are_joined};
ghost use Rattle.sched_run.specs.Played.{Departs, line_of};

use crate::departure::{Departure, DepartureRecorder, IntoDeparture};
use crate::recorder::Recorder;
use outside_core::{Sink, Stop};
use packet_defs::{Departed, Packet};
use policy_defs::NodeNames;
use report_core::{Report, WriteFault};
use sched_core::Scheduler;
use tree_core::Taken;

impl Recorder for Report {
    ghost records = { λ _. adds_lines };

    ghost cuts = { λ _. cuts_lines };

    ghost live = { λ report. IsTrue report.live };

    ghost over = { λ _. false };

    #[inline(always)]
    fn arrived<K: Sink>(
        &mut self,
        sink: &mut K,
        event: u64,
        packet: &Packet,
        _captured: &[u8],
        leaf: &str,
        ranks: &[u64],
    ) -> Result<(), Stop> {
        self.arrived(sink, event, packet.number, leaf, ranks)?;
        Ok(())
    }

    #[inline(never)]
    fn dropped<K: Sink>(
        &mut self,
        sink: &mut K,
        event: u64,
        packet: &Packet,
        leaf: &str,
    ) -> Result<(), WriteFault> {
        self.dropped(sink, event, packet.number, leaf)
    }

    #[inline(always)]
    fn departed<K: Sink>(
        &mut self,
        sink: &mut K,
        event: u64,
        departed: &Departed,
        leaf: &str,
        ranks: &[u64],
        start: Option<u128>,
    ) -> Result<(), WriteFault> {
        self.departed(sink, event, departed.packet, leaf, ranks, start)
    }

    #[inline(never)]
    fn empty<K: Sink>(&mut self, sink: &mut K, event: u64) -> Result<(), WriteFault> {
        self.empty(sink, event)
    }

    fn over(&self) -> bool {
        false
    }

    ghost joined = { λ _. lines_are_joined };
}

impl DepartureRecorder for Report {
    #[inline(always)]
    fn depart<C: Scheduler, N: NodeNames, K: Sink>(
        &mut self,
        names: &N,
        scheduler: &mut C,
        under: &mut C::Under,
        trace: &mut Taken,
        sink: &mut K,
        departure: Departure,
    ) -> Result<Option<Departed>, WriteFault> {
        depart_line(names, scheduler, under, trace, self, sink, departure)
    }
}

/// Makes a departure and writes its line. Allocates no memory. It is part of its callers, so that the
/// packet that departed isn't copied out of its result.
#[inline(always)]
pub fn depart_line<C: Scheduler, N: NodeNames, K: Sink, D: IntoDeparture>(
    names: &N,
    scheduler: &mut C,
    under: &mut C::Under,
    trace: &mut Taken,
    report: &mut Report,
    sink: &mut K,
    departure: D,
) -> Result<Option<Departed>, WriteFault>
    requires can { CanDepart C.Scheduler ⟦<Report as Recorder>⟧.live (N.policy names.now)
        scheduler.old under.old trace.old report.old }

    ensures departs { Departs C.Scheduler result scheduler.old under.old trace.old scheduler.new
        under.new trace.new }
    ensures text { OnOk result (ForEachState C.stands (C.policy scheduler.old) scheduler.old
        under.old (λ s.
        Tells K.written sink.old report.old sink.new report.new
        (line_of (C.policy scheduler.old) (D.departure departure).event
        (Depart (D.departure departure).start) s))) }
    ensures cut { OnErr result (ForEachState C.stands (C.policy scheduler.old) scheduler.old
        under.old (λ s.
        CutsOff K.written sink.old report.old sink.new
        (line_of (C.policy scheduler.old) (D.departure departure).event
        (Depart (D.departure departure).start) s))) }
    ensures kept { KeepsSink K.written K.faults sink.old sink.new }
    ensures cause { OnErr result (Rose (K.faults sink.old) (K.faults sink.new)) }
    ensures live { report.new.live ≡ is_ok result }
{
    let Departure { event, start } = departure.into_departure();
    match scheduler.depart(under, trace) {
        Some(departed) => {
            let leaf = names.name(departed.leaf);
            report.departed(sink, event, departed.packet, leaf, trace.ranks(), start)?;
            Ok(Some(departed))
        }
        None => {
            report.empty(sink, event)?;
            Ok(None)
        }
    }
}
