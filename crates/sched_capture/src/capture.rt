//! A run over a capture through the policy's own tree of queues.
ghost use Rattle.std.specs.Prelude.{◌≡◌, ◌≤◌, codes, IfOk, IfErr, IfSome, IsTrue, OnOk, OnErr};
ghost use Rattle.outside_core.specs.Kept.{KeepsSink, HasCause, HasSinkCause};
ghost use Rattle.outside_core.specs.Written.{Appended, AppendedPrefix};
ghost use Rattle.outside_core.specs.Report.{fault_line};
ghost use Rattle.pcapng_defs.specs.NgContents.{in_file};
ghost use Rattle.sched_capture.specs.Arrivals.{Begins};
ghost use Rattle.pcap_core.specs.Captures.{Opens};
ghost use Rattle.sched_capture.specs.CapturePackets.{resolved_of, contents_of, left_of};
ghost use Rattle.sched_defs.specs.SourceState.{start};
ghost use Rattle.sched_run.specs.Stages.{IsFresh};
ghost use Rattle.sched_run.specs.Steps.{pace_of, IsBounded, IsNoPastLast, CanEndSo};
ghost use Rattle.sched_capture.specs.Answers.{IsRefusal, IsRefusalPart, answer_of, paced_answer};
ghost use Rattle.sched_capture.specs.Starts.{IsAtStart, AreUnread};
ghost use Rattle.sched_capture.specs.Outside.{IsReported, KeepsOutside};

use crate::capture_packets::CapturePackets;
use crate::course::run_over;
use crate::task::Task;
use outside_core::{ReadError, Shelf, Sink, Stop};
use policy_core::Policy;
use report_core::{FaultKind, Report, write_fault};
use sched_core::{Direct, Scheduler};
use sched_defs::Ending;
use sched_run::{NameTable, Pace, Recorder, Run};
use std::alloc::{AllocError, Global};
use tap_core::{Named, Tap, Watching};
use tree_core::SourceTree;

/// Writes the fault line of a file that is no capture, as the whole report. Returns how the run
/// ends.
pub(crate) fn refuse<K: Sink>(
    alloc: Global,
    sink: &mut K,
    code: u32,
    place: u64,
) -> Result<Ending, Stop>
    ensures ending { IfOk result (λ e. e ≡ Ending.BadCapture code place) }
    ensures text { OnOk result (Appended (K.written sink.old) (K.written sink.new)
        (fault_line (codes "capture") code place)) }
    ensures part { OnErr result (AppendedPrefix (K.written sink.old) (K.written sink.new)
        (fault_line (codes "capture") code place)) }
    ensures kept { KeepsSink K.written K.faults sink.old sink.new }
    ensures cause { IfErr result (λ stop. HasSinkCause stop K.faults sink.old sink.new) }
{
    write_fault(alloc, sink, FaultKind::Capture, code, place)?;
    Ok(Ending::BadCapture(code, place))
}

/// Begins the capture of this name and reads its beginning. If no run can follow, the error is the
/// run's result: the capture's fault, after its line is written as the whole report, or the cause
/// of a stop.
pub fn begin<'a, S: Shelf, K: Sink>(
    alloc: Global,
    policy: &'a Policy,
    capture: &str,
    shelf: &mut S,
    sink: &mut K,
) -> Result<CapturePackets<'a, S>, Result<Ending, Stop>>
    requires lent { IsTrue (S.lends shelf.old capture.now) }

    ensures opens { IfOk result (λ a. IfSome (S.content shelf.old capture.now) (λ file.
        Opens (in_file file) (contents_of a (S.left shelf.new)))) }
    ensures begins { IfOk result (λ a. IfSome (S.content shelf.old capture.now) (λ file.
        Begins policy.now (in_file file) (left_of a (S.left shelf.new)))) }
    ensures policy { IfOk result (λ a. resolved_of a ≡ policy.now) }
    ensures unread { IfOk result (λ a. AreUnread policy.now.policy a (S.begun shelf.new)) }
    ensures unwritten { OnOk result (sink.new ≡ sink.old) }

    ensures refused { IfErr result (λ answer. IfOk answer (λ e.
        IfSome (S.content shelf.old capture.now) (λ file.
        IsRefusal (in_file file) e (K.written sink.old) (K.written sink.new)))) }
    ensures at_capture { IfErr result (λ answer. IfOk answer IsNoPastLast) }
    ensures part { IfErr result (λ answer. OnErr answer (IfSome (S.content shelf.old capture.now)
        (λ file.
        IsRefusalPart (in_file file) (K.written sink.old) (K.written sink.new)))) }
    ensures kept { KeepsSink K.written K.faults sink.old sink.new }
    ensures later { S.faults shelf.old ≤ S.faults shelf.new }
    ensures cause { IfErr result (λ answer. IfErr answer (λ stop.
        HasCause stop S.faults shelf.old shelf.new K.faults sink.old sink.new)) }
{
    match CapturePackets::open(alloc, policy, shelf, capture) {
        Ok(packets) => Ok(packets),
        Err(ReadError::Fault(code, place)) => Err(refuse(alloc, sink, code, place)),
        Err(ReadError::Source) => Err(Err(Stop::Source)),
        Err(ReadError::Memory) => Err(Err(Stop::Memory)),
    }
}

/// Returns a run without events, through the policy's own tree of queues, with this recorder, and
/// that tree. The error means out of memory.
pub fn direct_run<'a, W: Recorder>(
    alloc: Global,
    policy: &'a Policy,
    recorder: W,
) -> Result<(Run<Direct<'a>, NameTable<'a>, W>, SourceTree), AllocError>
    requires live { W.live recorder }

    ensures start { IfOk result (λ r. IsAtStart ⟦<Direct<'a> as Scheduler>⟧ W.Recorder (λ p.
        p.policy) policy.now.policy r.0 r.1) }
    ensures fresh { IfOk result (λ r. IsFresh r.0.tally) }
    ensures recorder { IfOk result (λ r. r.0.recorder ≡ recorder) }
{
    let names = NameTable::new(alloc, policy)?;
    let (scheduler, tree) = Direct::new(alloc, policy)?;
    let run = Run::new(
        alloc,
        names,
        policy.depth(),
        policy.version(),
        scheduler,
        recorder,
    )?;
    Ok((run, tree))
}

/// Runs the packets of a capture through the policy's own tree of queues, and writes the report.
fn direct_packets<S: Shelf, K: Sink>(
    alloc: Global,
    policy: &Policy,
    pace: Pace<'_>,
    packets: &mut CapturePackets<'_, S>,
    shelf: &mut S,
    sink: &mut K,
) -> Result<Ending, Stop>
    requires unread { AreUnread policy.now.policy packets.old (S.begun shelf.old) }
    requires bounded { IsBounded pace }

    ensures report { IfSome (left_of packets.old (S.left shelf.old)) (λ l.
        IsReported result (answer_of policy.now.policy (pace_of pace.entry) l.packets l.fault)
        (K.written sink.old) (K.written sink.new)) }
    ensures ends { IfOk result (CanEndSo pace.entry) }
    ensures outside { KeepsOutside result S.faults shelf.old shelf.new K.written K.faults sink.old
        sink.new }
{
    let report = Report::new(alloc)?;
    let (mut run, mut tree) = direct_run(alloc, policy, report)?;
    let mut watch: Watching<Box<dyn Tap>> = Watching::new(alloc, Named::none(), Vec::new(alloc));
    run_over(
        policy, &mut run, &mut tree, pace, packets, shelf, sink, &mut watch,
    )
}

/// Runs a script or a link over a capture, through the policy's own tree of queues, and writes the
/// whole report. Returns how the run ended, also for a fault of the capture and for a script that
/// asks for too many packets. Fails if the capture can't be read, if the report can't be written,
/// or when out of memory. The report is then cut short.
pub fn direct<S: Shelf, K: Sink>(
    alloc: Global,
    policy: &Policy,
    task: &Task<'_, '_>,
    shelf: &mut S,
    sink: &mut K,
) -> Result<Ending, Stop>
    requires lent { IsTrue (S.lends shelf.old task.now.capture.now) }
    requires bounded { IsBounded task.now.pace }

    ensures report { IfSome (S.content shelf.old task.now.capture.now) (λ file.
        IsReported result (paced_answer policy.now (pace_of task.now.pace) file)
        (K.written sink.old) (K.written sink.new)) }
    ensures ends { IfOk result (CanEndSo task.now.pace) }
    ensures outside { KeepsOutside result S.faults shelf.old shelf.new K.written K.faults sink.old
        sink.new }
{
    match begin(alloc, policy, task.capture, shelf, sink) {
        Ok(mut packets) => direct_packets(alloc, policy, task.pace, &mut packets, shelf, sink),
        Err(answer) => answer,
    }
}
