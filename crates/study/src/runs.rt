//! Runs through a policy's own tree of queues, or through a fabric that holds it.
ghost use Rattle.std.specs.Prelude.{◌≡◌, ◌<◌, false, IfOk, IfSome, IsTrue, OnOk, OnErr};
ghost use Rattle.outside_core.specs.Written.{Appended, AppendedPrefix};
ghost use Rattle.sched_defs.specs.SendTime.{IsRate};
ghost use Rattle.sched_run.specs.Steps.{pace_of, IsBounded, CanEndSo};
ghost use Rattle.sched_capture.specs.Answers.{paced_answer};
ghost use Rattle.sched_capture.specs.Forwards.{forward_answer};
ghost use Rattle.study.specs.Recorded.{HasRecorded, HasRecordedPart, IfRecorded, ending_in};
ghost use Rattle.study.specs.Places.{policy_in};
ghost use Rattle.sched_capture.specs.Placements.{CanCount};
ghost use Rattle.replay_app.specs.Causes.{HasCauses};
ghost use Rattle.sched_capture.specs.Outside.{IsReported, KeepsOutside};

use crate::place::Place;
use crate::recorded::{Recorded, record_own, record_through};
use fabric_core::Fabric;
use outside_core::{Shelf, Sink, Stop};
use sched_capture::{Ending, ForwardEnding, Task, direct, forward, forward_own, replay};
use sched_defs::LinkRate;
use sched_run::DepartureRecorder;
use std::alloc::Global;
use tap_core::{Named, OrderTap, Watching};

/// Runs a task and writes its report. The packets go through the fabric if the policy's tree is
/// laid there, and otherwise through the policy's own tree.
pub fn write_report<S: Shelf, K: Sink, F: Fabric>(
    alloc: Global,
    place: Place,
    task: &Task<'_, '_>,
    shelf: &mut S,
    sink: &mut K,
    fabric: &mut F,
) -> Result<Ending, Stop>
    requires lent { IsTrue (S.lends shelf.old task.now.capture.now) }
    requires bounded { IsBounded task.now.pace }
    requires counts { CanCount F.Fabric fabric.old }

    ensures report { IfSome (S.content shelf.old task.now.capture.now) (λ file.
        IsReported result (paced_answer (policy_in place) (pace_of task.now.pace) file)
        (K.written sink.old) (K.written sink.new)) }
    ensures ends { IfOk result (CanEndSo task.now.pace) }
    ensures causes { HasCauses result (S.faults shelf.old) (S.faults shelf.new) (K.faults sink.old)
        (K.faults sink.new) }
{
    match place {
        Place::Own(policy) => direct(alloc, &policy, task, shelf, sink),
        Place::Laid(laid) => {
            let mut watch: Watching<OrderTap> = Watching::new(
                alloc,
                Named::none(),
                Vec::new(alloc),
            );
            replay(alloc, laid, task, shelf, sink, fabric, &mut watch)
        }
    }
}

/// Runs a link over a capture, and writes the departures as a capture. The packets go through the
/// fabric if the policy's tree is laid there, and otherwise through the policy's own tree.
pub fn write_departures<S: Shelf, K: Sink, F: Fabric>(
    alloc: Global,
    place: Place,
    capture: &str,
    rate: LinkRate,
    shelf: &mut S,
    sink: &mut K,
    fabric: &mut F,
) -> Result<ForwardEnding, Stop>
    requires lent { IsTrue (S.lends shelf.old capture.now) }
    requires rate { IsRate rate }
    requires counts { CanCount F.Fabric fabric.old }

    ensures ending { IfOk result (λ e. IfSome (S.content shelf.old capture.now) (λ file.
        e ≡ (forward_answer (policy_in place) rate file).ending)) }
    ensures text { OnOk result (IfSome (S.content shelf.old capture.now) (λ file.
        Appended (K.written sink.old) (K.written sink.new)
        (forward_answer (policy_in place) rate file).text)) }
    ensures part { OnErr result (IfSome (S.content shelf.old capture.now) (λ file.
        AppendedPrefix (K.written sink.old) (K.written sink.new)
        (forward_answer (policy_in place) rate file).text)) }
    ensures causes { HasCauses result (S.faults shelf.old) (S.faults shelf.new) (K.faults sink.old)
        (K.faults sink.new) }
{
    match place {
        Place::Own(policy) => forward_own(alloc, &policy, capture, rate, shelf, sink),
        Place::Laid(laid) => forward(alloc, laid, capture, rate, shelf, sink, fabric),
    }
}

/// Runs a task, and records its outcomes with this recorder, which must never end a run. The
/// packets go through the fabric if the policy's tree is laid there, and otherwise through the
/// policy's own tree.
pub fn record<S: Shelf, K: Sink, F: Fabric, W: DepartureRecorder>(
    alloc: Global,
    place: Place,
    task: &Task<'_, '_>,
    recorder: W,
    shelf: &mut S,
    sink: &mut K,
    fabric: &mut F,
) -> Result<Recorded<W>, Stop>
    requires live { W.live recorder }
    requires endless { (w : W) → W.over w ≡ false }
    requires lent { IsTrue (S.lends shelf.old task.now.capture.now) }
    requires bounded { IsBounded task.now.pace }
    requires counts { CanCount F.Fabric fabric.old }

    ensures recorded { IfOk result (λ r. IfSome (S.content shelf.old task.now.capture.now) (λ file.
        HasRecorded W.Recorder (policy_in place).policy
        (paced_answer (policy_in place) (pace_of task.now.pace) file)
        recorder (K.written sink.old) r (K.written sink.new))) }
    ensures part { OnErr result (IfSome (S.content shelf.old task.now.capture.now) (λ file.
        HasRecordedPart W.Recorder (policy_in place).policy
        (paced_answer (policy_in place) (pace_of task.now.pace) file)
        recorder (K.written sink.old) (K.written sink.new))) }
    ensures ends { IfOk result (λ r. CanEndSo task.now.pace (ending_in r)) }
    ensures live { IfOk result (λ r. IfRecorded r W.live) }
    ensures outside { KeepsOutside result S.faults shelf.old shelf.new K.written K.faults sink.old
        sink.new }
{
    match place {
        Place::Own(policy) => record_own(alloc, &policy, task, recorder, shelf, sink),
        Place::Laid(laid) => record_through(alloc, laid, task, recorder, shelf, sink, fabric),
    }
}
