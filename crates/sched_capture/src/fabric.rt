//! A run over a capture through the hardware's queues.
ghost use Rattle.std.specs.Prelude.{◌≡◌, Some, List, IfOk, IfSome, IsTrue, OnOk, OnErr};
ghost use Rattle.sched_defs.specs.Events.{Event};
ghost use Rattle.sched_run.specs.Stages.{IsFresh};
ghost use Rattle.sched_run.specs.Steps.{pace_of, IsBounded, CanEndSo};
ghost use Rattle.sched_embedded.specs.Embedded.{origin_of, origin_in};
ghost use Rattle.sched_embedded.specs.Fabrics.{Leaves, LeavesPart, run_of};
ghost use Rattle.sched_capture.specs.Answers.{paced_answer, shown_by, HaveWatched};
ghost use Rattle.sched_capture.specs.Placements.{laid_by, laid_in, CanCount, MapsInto};
ghost use Rattle.tap_core.specs.Watching.{sight_of, AreNoMore};
ghost use Rattle.sched_capture.specs.Starts.{IsAtStart};
ghost use Rattle.sched_capture.specs.Outside.{IsReported, KeepsOutside};

use crate::capture::begin;
use crate::course::run_over;
use crate::laid::LaidPolicy;
use crate::task::Task;
use embed_core::{Map, Target};
use fabric_core::Fabric;
use outside_core::{Shelf, Sink, Stop};
use policy_core::Policy;
use report_core::Report;
use sched_core::Scheduler;
use sched_defs::Ending;
use sched_embedded::Embedded;
use sched_run::{NameTable, Recorder, Run};
use std::alloc::{AllocError, Global};
use tap_core::{Tap, Watching};

/// Returns a run without events, through a fabric into which the policy's tree is laid, with this
/// recorder. The fabric takes the target's shape. The error means out of memory.
pub fn run_through<'a, F: Fabric, W: Recorder>(
    alloc: Global,
    policy: &'a Policy,
    target: &Target,
    map: Map,
    recorder: W,
    fabric: &mut F,
) -> Result<Run<Embedded<'a, F>, NameTable<'a>, W>, AllocError>
    requires placed { MapsInto policy.now.policy map target.now }
    requires counts { CanCount F.Fabric fabric.old }
    requires live { W.live recorder }

    ensures start { IfOk result (λ run. IsAtStart ⟦<Embedded<'a, F> as Scheduler>⟧ W.Recorder (λ p.
        p.policy) policy.now.policy run fabric.new) }
    ensures fresh { IfOk result (λ run. IsFresh run.tally) }
    ensures recorder { IfOk result (λ run. run.recorder ≡ recorder) }
    ensures origin { IfOk result (λ run. origin_of run.scheduler ≡
        origin_in F.Fabric map target.now.arities fabric.old) }
    ensures spilled { F.spilled fabric.new ≡ F.spilled fabric.old }
    ensures part { OnErr result ((events : List Event) →
        LeavesPart F.Fabric (Some (record {
          policy = policy.now.policy;
          laid = laid_in map target.now;
          events = events;
        }))
        fabric.old fabric.new) }
{
    let names = NameTable::new(alloc, policy)?;
    let scheduler = Embedded::new(alloc, policy, map, target, fabric)?;
    let run = Run::new(
        alloc,
        names,
        policy.depth(),
        policy.version(),
        scheduler,
        recorder,
    )?;
    Ok(run)
}

/// Runs a script or a link over a capture, through a fabric into which a map lays the policy's
/// tree, and writes the whole report. The report is that of the policy's own tree. Once the
/// capture's beginning is accepted, the fabric takes the target's shape and taps watch. Returns and
/// fails as `direct` does.
pub fn replay<S: Shelf, K: Sink, F: Fabric, T: Tap>(
    alloc: Global,
    laid: LaidPolicy,
    task: &Task<'_, '_>,
    shelf: &mut S,
    sink: &mut K,
    fabric: &mut F,
    watch: &mut Watching<T>,
) -> Result<Ending, Stop>
    requires lent { IsTrue (S.lends shelf.old task.now.capture.now) }
    requires bounded { IsBounded task.now.pace }
    requires counts { CanCount F.Fabric fabric.old }

    ensures report { IfSome (S.content shelf.old task.now.capture.now) (λ file.
        IsReported result (paced_answer laid.policy (pace_of task.now.pace) file)
        (K.written sink.old) (K.written sink.new)) }
    ensures ends { IfOk result (CanEndSo task.now.pace) }
    ensures fabric { OnOk result (IfSome (S.content shelf.old task.now.capture.now) (λ file.
        Leaves F.Fabric (run_of laid.policy.policy (laid_by laid)
        (paced_answer laid.policy (pace_of task.now.pace) file).events)
        fabric.old fabric.new)) }
    ensures fabric_part { OnErr result (IfSome (S.content shelf.old task.now.capture.now) (λ file.
        LeavesPart F.Fabric (run_of laid.policy.policy (laid_by laid)
        (paced_answer laid.policy (pace_of task.now.pace) file).events)
        fabric.old fabric.new)) }
    ensures watched { OnOk result (IfSome (S.content shelf.old task.now.capture.now) (λ file.
        HaveWatched (shown_by laid.policy.policy
        (paced_answer laid.policy (pace_of task.now.pace) file))
        (sight_of T.kind_of T.state_of watch.old) (sight_of T.kind_of T.state_of watch.new))) }
    ensures fewer { AreNoMore (sight_of T.kind_of T.state_of watch.old)
        (sight_of T.kind_of T.state_of watch.new) }
    ensures outside { KeepsOutside result S.faults shelf.old shelf.new K.written K.faults sink.old
        sink.new }
{
    let (policy, target, map) = laid.into_parts();
    match begin(alloc, &policy, task.capture, shelf, sink) {
        Ok(mut packets) => {
            let report = Report::new(alloc)?;
            let mut run = run_through(alloc, &policy, &target, map, report, fabric)?;
            run_over(
                &policy,
                &mut run,
                fabric,
                task.pace,
                &mut packets,
                shelf,
                sink,
                watch,
            )
        }
        Err(answer) => answer,
    }
}
