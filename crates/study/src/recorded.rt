//! Runs over a capture whose outcomes are recorded in another form than a report.
ghost use Rattle.std.specs.Prelude.{◌≡◌, ◌<◌, false, IfOk, IfSome, IsTrue, OnOk, OnErr};
ghost use Rattle.sched_capture.specs.CapturePackets.{left_of};
ghost use Rattle.sched_run.specs.Steps.{pace_of, IsBounded, CanEndSo};
ghost use Rattle.sched_capture.specs.Answers.{answer_of, paced_answer};
ghost use Rattle.study.specs.Recorded.{IsWholeRun, HasRecorded, HasRecordedPart, IfRecorded, ending_in};
ghost use Rattle.sched_capture.specs.Placements.{CanCount};
ghost use Rattle.sched_capture.specs.Starts.{IsAtStart, AreUnread};
ghost use Rattle.sched_run.specs.Stages.{IsFresh};
ghost use Rattle.sched_capture.specs.Outside.{KeepsOutside};

use fabric_core::Fabric;
use outside_core::{Shelf, Sink, Stop};
use policy_core::Policy;
use sched_capture::{CapturePackets, LaidPolicy, Task, begin, direct_run, run_through};
use sched_core::Scheduler;
use sched_defs::Ending;
use sched_run::{DepartureRecorder, NameTable, Pace, Run};
use std::alloc::Global;
use tap_core::{Named, OrderTap, Watching};

/// How a run with another recorder than a report ends.
#[derive(Drop)]
pub enum Recorded<W: Drop> {
    /// The ending, and the recorder of all outcomes.
    Whole(Ending, W),
    /// The file is no capture. Its fault line is written as the whole text.
    Refused(Ending),
}

/// Runs the packets of a capture through any scheduler of this policy that is at the start, and
/// records the outcomes. Returns how the run ended.
fn record_packets<C: Scheduler + Drop, S: Shelf, K: Sink, W: DepartureRecorder>(
    alloc: Global,
    policy: &Policy,
    run: &mut Run<C, NameTable<'_>, W>,
    under: &mut C::Under,
    pace: Pace<'_>,
    packets: &mut CapturePackets<'_, S>,
    shelf: &mut S,
    sink: &mut K,
) -> Result<Ending, Stop>
    requires start { IsAtStart C.Scheduler W.Recorder (λ p. p.policy) policy.now.policy run.old
        under.old }
    requires fresh { IsFresh run.old.tally }
    requires endless { (w : W) → W.over w ≡ false }
    requires unread { AreUnread policy.now.policy packets.old (S.begun shelf.old) }
    requires bounded { IsBounded pace }

    ensures whole { IfOk result (λ e. IfSome (left_of packets.old (S.left shelf.old)) (λ l.
        IsWholeRun W.Recorder policy.now.policy
        (answer_of policy.now.policy (pace_of pace.entry) l.packets l.fault)
        run.old.recorder (K.written sink.old) e run.new.recorder (K.written sink.new))) }
    ensures part { OnErr result (IfSome (left_of packets.old (S.left shelf.old)) (λ l.
        HasRecordedPart W.Recorder policy.now.policy
        (answer_of policy.now.policy (pace_of pace.entry) l.packets l.fault)
        run.old.recorder (K.written sink.old) (K.written sink.new))) }
    ensures ends { IfOk result (CanEndSo pace.entry) }
    ensures live { OnOk result (W.live run.new.recorder) }
    ensures outside { KeepsOutside result S.faults shelf.old shelf.new K.written K.faults sink.old
        sink.new }
{
    let mut watch: Watching<OrderTap> = Watching::new(alloc, Named::none(), Vec::new(alloc));
    let played = run.play_events(under, sink, &mut watch, packets, shelf, pace)?;
    let Some(ending) = played else { unreachable!() };
    Ok(ending)
}

/// Runs a script or a link over a capture, through any scheduler of this policy that is at the
/// start, and records the outcomes.
fn record_over<C: Scheduler + Drop, S: Shelf, K: Sink, W: DepartureRecorder>(
    alloc: Global,
    policy: &Policy,
    run: Run<C, NameTable<'_>, W>,
    under: &mut C::Under,
    task: &Task<'_, '_>,
    shelf: &mut S,
    sink: &mut K,
) -> Result<Recorded<W>, Stop>
    requires start { IsAtStart C.Scheduler W.Recorder (λ p. p.policy) policy.now.policy run
        under.old }
    requires fresh { IsFresh run.tally }
    requires endless { (w : W) → W.over w ≡ false }
    requires lent { IsTrue (S.lends shelf.old task.now.capture.now) }
    requires bounded { IsBounded task.now.pace }

    ensures recorded { IfOk result (λ r. IfSome (S.content shelf.old task.now.capture.now) (λ file.
        HasRecorded W.Recorder policy.now.policy (paced_answer policy.now (pace_of task.now.pace) file)
        run.entry.recorder (K.written sink.old) r (K.written sink.new))) }
    ensures part { OnErr result (IfSome (S.content shelf.old task.now.capture.now) (λ file.
        HasRecordedPart W.Recorder policy.now.policy (paced_answer policy.now (pace_of task.now.pace) file)
        run.entry.recorder (K.written sink.old) (K.written sink.new))) }
    ensures ends { IfOk result (λ r. CanEndSo task.now.pace (ending_in r)) }
    ensures live { IfOk result (λ r. IfRecorded r W.live) }
    ensures outside { KeepsOutside result S.faults shelf.old shelf.new K.written K.faults sink.old
        sink.new }
{
    let mut run = run;
    match begin(alloc, policy, task.capture, shelf, sink) {
        Ok(mut packets) => {
            let ending = record_packets(
                alloc,
                policy,
                &mut run,
                under,
                task.pace,
                &mut packets,
                shelf,
                sink,
            )?;
            Ok(Recorded::Whole(ending, run.into_recorder()))
        }
        Err(Ok(ending)) => Ok(Recorded::Refused(ending)),
        Err(Err(stop)) => Err(stop),
    }
}

/// Runs a script or a link over a capture, through the policy's own tree of queues, and records the
/// outcomes with this recorder, which must never end a run. The recorder is returned unless the
/// file is no capture. Fails if the capture can't be read, if the record can't be written, or when
/// out of memory. The record is then cut short.
pub fn record_own<S: Shelf, K: Sink, W: DepartureRecorder>(
    alloc: Global,
    policy: &Policy,
    task: &Task<'_, '_>,
    recorder: W,
    shelf: &mut S,
    sink: &mut K,
) -> Result<Recorded<W>, Stop>
    requires live { W.live recorder }
    requires endless { (w : W) → W.over w ≡ false }
    requires lent { IsTrue (S.lends shelf.old task.now.capture.now) }
    requires bounded { IsBounded task.now.pace }

    ensures recorded { IfOk result (λ r. IfSome (S.content shelf.old task.now.capture.now) (λ file.
        HasRecorded W.Recorder policy.now.policy (paced_answer policy.now (pace_of task.now.pace) file)
        recorder (K.written sink.old) r (K.written sink.new))) }
    ensures part { OnErr result (IfSome (S.content shelf.old task.now.capture.now) (λ file.
        HasRecordedPart W.Recorder policy.now.policy (paced_answer policy.now (pace_of task.now.pace) file)
        recorder (K.written sink.old) (K.written sink.new))) }
    ensures ends { IfOk result (λ r. CanEndSo task.now.pace (ending_in r)) }
    ensures live { IfOk result (λ r. IfRecorded r W.live) }
    ensures outside { KeepsOutside result S.faults shelf.old shelf.new K.written K.faults sink.old
        sink.new }
{
    let (run, mut tree) = direct_run(alloc, policy, recorder)?;
    record_over(alloc, policy, run, &mut tree, task, shelf, sink)
}

/// The same through a fabric into which the policy's tree is laid.
pub fn record_through<S: Shelf, K: Sink, F: Fabric, W: DepartureRecorder>(
    alloc: Global,
    laid: LaidPolicy,
    task: &Task<'_, '_>,
    recorder: W,
    shelf: &mut S,
    sink: &mut K,
    fabric: &mut F,
) -> Result<Recorded<W>, Stop>
    requires live { W.live recorder }
    requires endless { (w : W) → W.over w ≡ false }
    requires lent { IsTrue (S.lends shelf.old task.now.capture.now) }
    requires bounded { IsBounded task.now.pace }
    requires counts { CanCount F.Fabric fabric.old }

    ensures recorded { IfOk result (λ r. IfSome (S.content shelf.old task.now.capture.now) (λ file.
        HasRecorded W.Recorder laid.policy.policy
        (paced_answer laid.policy (pace_of task.now.pace) file)
        recorder (K.written sink.old) r (K.written sink.new))) }
    ensures part { OnErr result (IfSome (S.content shelf.old task.now.capture.now) (λ file.
        HasRecordedPart W.Recorder laid.policy.policy
        (paced_answer laid.policy (pace_of task.now.pace) file)
        recorder (K.written sink.old) (K.written sink.new))) }
    ensures ends { IfOk result (λ r. CanEndSo task.now.pace (ending_in r)) }
    ensures live { IfOk result (λ r. IfRecorded r W.live) }
    ensures outside { KeepsOutside result S.faults shelf.old shelf.new K.written K.faults sink.old
        sink.new }
{
    let (policy, target, map) = laid.into_parts();
    let run = run_through(alloc, &policy, &target, map, recorder, fabric)?;
    record_over(alloc, &policy, run, fabric, task, shelf, sink)
}
