//! The second phase of a command: it runs.
ghost use Rattle.std.specs.Prelude.{◌≡◌, ◌≤◌, ◌<◌, [], vec_len, IfOk, IfSome, OnOk, OnErr, IsTrue, IsErrOf};
ghost use Rattle.outside_core.specs.Faults.{Rose};
ghost use Rattle.outside_core.specs.Written.{Appended, AppendedPrefix};
ghost use Rattle.sched_defs.specs.SendTime.{IsRate};
ghost use Rattle.sched_embedded.specs.Fabrics.{IsAsItWas};
ghost use Rattle.sched_run.specs.Steps.{pace_of, IsBounded};
ghost use Rattle.sched_capture.specs.Placements.{laid_by, CanCount};
ghost use Rattle.tap_core.specs.Lists.{entries, named_entries};
ghost use Rattle.tap_core.specs.Watching.{sight_of, AreNoMore};
ghost use Rattle.replay_app.specs.Answer.{HoldsRun, IsLeft, IsTold};
ghost use Rattle.replay_app.specs.Causes.{HasCauses};
ghost use Rattle.replay_app.specs.Jobs.{alone_run, job_files, job_statuses, job_taps, drive_statuses, taps_after, IsJobOutput, IsLeftSo, IsDrive, CanDo, LeavesFabric, LeavesTaps};
ghost use Rattle.replay_app.specs.Output.{direct_run, forward_run, laid_run};
ghost use Rattle.replay_app.specs.Scripts.{OfLines};
ghost use Rattle.replay_app.specs.Stages.{watching_in};
ghost use Rattle.replay_app.specs.Statuses.{IsOneOf, pace_statuses, run_statuses, forward_statuses, status_code};
ghost use Rattle.replay_app.specs.Words.{AreLent, WhereTold};

use crate::job::{Drive, Job};
use crate::soak::soak_load;
use crate::status::Status;
use crate::writing::write;
use fabric_core::Fabric;
use outside_core::{Shelf, Sink, Stop};
use policy_core::Policy;
use sched_capture::{Ending, LaidPolicy, Task, direct, forward, replay};
use sched_defs::LinkRate;
use sched_run::Pace;
use std::alloc::Global;
use std::mem;
use tap_core::{Named, OrderTap, Tap, Watching};

/// Writes the lines of the taps that watched, if the run ended whole. They follow its report.
fn write_lines<K: Sink, T: Tap>(
    alloc: Global,
    sink: &mut K,
    watch: &Watching<T>,
    ending: Ending,
) -> Result<(), Stop>
    ensures text { OnOk result (OfLines ending (sight_of T.kind_of T.state_of watch.now)
        (Appended (K.written sink.old) (K.written sink.new))) }
    ensures part { OnErr result (OfLines ending (sight_of T.kind_of T.state_of watch.now)
        (AppendedPrefix (K.written sink.old) (K.written sink.new))) }
    ensures sink_cause { IsErrOf result Stop.Sink → Rose (K.faults sink.old) (K.faults sink.new) }
    ensures sink_later { K.faults sink.old ≤ K.faults sink.new }
    ensures reads_nothing { IsErrOf result Stop.Source → ⊥ }
{
    match ending {
        Ending::Whole(_) => write(alloc, &watch.lines()?, sink),
        Ending::BadCapture(_, _) | Ending::PastLast(_) => Ok(()),
    }
}

/// Runs a script or a link over a capture file, through the fabric, and writes the lines of the
/// taps that watched.
fn run_laid<S: Shelf, K: Sink, F: Fabric, T: Tap>(
    alloc: Global,
    laid: LaidPolicy,
    task: &Task<'_, '_>,
    shelf: &mut S,
    sink: &mut K,
    fabric: &mut F,
    watch: &mut Watching<T>,
) -> Result<Status, Stop>
    requires lent { IsTrue (S.lends shelf.old task.now.capture.now) }
    requires bounded { IsBounded task.now.pace }
    requires counts { CanCount F.Fabric fabric.old }

    ensures answer { IfSome (S.content shelf.old task.now.capture.now) (λ file.
        IsTold (λ a. a ≡ laid_run laid.policy (laid_by laid) (pace_of task.now.pace) file
        (watching_in (sight_of T.kind_of T.state_of watch.old))) result (K.written sink.old) (K.written sink.new)) }
    ensures left { IfSome (S.content shelf.old task.now.capture.now) (λ file.
        IsLeft F.Fabric (λ a. a ≡ laid_run laid.policy (laid_by laid) (pace_of task.now.pace) file
        (watching_in (sight_of T.kind_of T.state_of watch.old))) result fabric.old fabric.new
        (sight_of T.kind_of T.state_of watch.old) (sight_of T.kind_of T.state_of watch.new)) }
    ensures fewer { AreNoMore (sight_of T.kind_of T.state_of watch.old)
        (sight_of T.kind_of T.state_of watch.new) }
    ensures statuses { IfOk result (λ s. IsOneOf (pace_statuses task.now.pace) (status_code s)) }
    ensures causes { HasCauses result (S.faults shelf.old) (S.faults shelf.new) (K.faults sink.old)
        (K.faults sink.new) }
{
    let ending = replay(alloc, laid, task, shelf, sink, fabric, watch)?;
    write_lines(alloc, sink, watch, ending)?;
    Ok(Status::of_run(ending))
}

/// Runs a script or a link over a capture file, through the fabric. The taps of these kinds watch,
/// and the others are dropped.
fn run_watched<S: Shelf, K: Sink, F: Fabric, T: Tap>(
    alloc: Global,
    laid: LaidPolicy,
    named: Named,
    task: &Task<'_, '_>,
    shelf: &mut S,
    sink: &mut K,
    fabric: &mut F,
    taps: &mut Vec<T>,
) -> Result<Status, Stop>
    requires lent { IsTrue (S.lends shelf.old task.now.capture.now) }
    requires bounded { IsBounded task.now.pace }
    requires counts { CanCount F.Fabric fabric.old }

    ensures answer { IfSome (S.content shelf.old task.now.capture.now) (λ file.
        IsTold (λ a. a ≡ laid_run laid.policy (laid_by laid) (pace_of task.now.pace) file
        (named_entries named (entries T.kind_of T.state_of taps.old.items))) result
        (K.written sink.old) (K.written sink.new)) }
    ensures left { IfSome (S.content shelf.old task.now.capture.now) (λ file.
        IsLeftSo F.Fabric (taps_after named) (λ a. a ≡ laid_run laid.policy (laid_by laid) (pace_of task.now.pace) file
        (named_entries named (entries T.kind_of T.state_of taps.old.items))) result fabric.old fabric.new
        (entries T.kind_of T.state_of taps.old.items) (entries T.kind_of T.state_of taps.new.items)) }
    ensures fewer { vec_len taps.new ≤ vec_len taps.old }
    ensures statuses { IfOk result (λ s. IsOneOf (pace_statuses task.now.pace) (status_code s)) }
    ensures causes { HasCauses result (S.faults shelf.old) (S.faults shelf.new) (K.faults sink.old)
        (K.faults sink.new) }
{
    let watchers = mem::replace(taps, Vec::new(alloc));
    let mut watch = Watching::new(alloc, named, watchers);
    let answer = run_laid(alloc, laid, task, shelf, sink, fabric, &mut watch);
    *taps = watch.into_taps();
    answer
}

/// Runs a script or a link over a capture file, through the fabric, without taps.
fn run_alone<S: Shelf, K: Sink, F: Fabric>(
    alloc: Global,
    laid: LaidPolicy,
    task: &Task<'_, '_>,
    shelf: &mut S,
    sink: &mut K,
    fabric: &mut F,
) -> Result<Status, Stop>
    requires lent { IsTrue (S.lends shelf.old task.now.capture.now) }
    requires bounded { IsBounded task.now.pace }
    requires counts { CanCount F.Fabric fabric.old }

    ensures answer { IfSome (S.content shelf.old task.now.capture.now) (λ file.
        IsTold (λ a. a ≡ laid_run laid.policy (laid_by laid) (pace_of task.now.pace) file []) result
        (K.written sink.old) (K.written sink.new)) }
    ensures left { IfSome (S.content shelf.old task.now.capture.now) (λ file.
        HoldsRun F.Fabric (λ a. a ≡ laid_run laid.policy (laid_by laid) (pace_of task.now.pace) file []) result
        fabric.old fabric.new) }
    ensures statuses { IfOk result (λ s. IsOneOf (pace_statuses task.now.pace) (status_code s)) }
    ensures causes { HasCauses result (S.faults shelf.old) (S.faults shelf.new) (K.faults sink.old)
        (K.faults sink.new) }
{
    let mut watch: Watching<OrderTap> = Watching::new(alloc, Named::none(), Vec::new(alloc));
    run_laid(alloc, laid, task, shelf, sink, fabric, &mut watch)
}

/// Runs a link over a capture file, through the fabric, and writes the departures as a capture.
fn run_forward<S: Shelf, K: Sink, F: Fabric>(
    alloc: Global,
    laid: LaidPolicy,
    capture: &str,
    rate: LinkRate,
    shelf: &mut S,
    sink: &mut K,
    fabric: &mut F,
) -> Result<Status, Stop>
    requires lent { IsTrue (S.lends shelf.old capture.now) }
    requires rate { IsRate rate }
    requires counts { CanCount F.Fabric fabric.old }

    ensures answer { IfSome (S.content shelf.old capture.now) (λ file.
        IsTold (λ a. a ≡ forward_run laid.policy (laid_by laid) rate file) result
        (K.written sink.old) (K.written sink.new)) }
    ensures left { IfSome (S.content shelf.old capture.now) (λ file.
        HoldsRun F.Fabric (λ a. a ≡ forward_run laid.policy (laid_by laid) rate file) result
        fabric.old fabric.new) }
    ensures statuses { IfOk result (λ s. IsOneOf forward_statuses (status_code s)) }
    ensures causes { HasCauses result (S.faults shelf.old) (S.faults shelf.new) (K.faults sink.old)
        (K.faults sink.new) }
{
    let ending = forward(alloc, laid, capture, rate, shelf, sink, fabric)?;
    Ok(Status::of_forward(ending))
}

/// Runs what paces a run over a capture file, through the fabric, without taps.
fn run_driven<S: Shelf, K: Sink, F: Fabric>(
    alloc: Global,
    laid: LaidPolicy,
    drive: &Drive,
    capture: &str,
    shelf: &mut S,
    sink: &mut K,
    fabric: &mut F,
) -> Result<Status, Stop>
    requires lent { IsTrue (S.lends shelf.old capture.now) }
    requires drive { IsDrive drive.now }
    requires counts { CanCount F.Fabric fabric.old }

    ensures answer { IfSome (S.content shelf.old capture.now) (λ file.
        IsTold (λ a. a ≡ alone_run laid drive.now file) result (K.written sink.old) (K.written sink.new)) }
    ensures left { IfSome (S.content shelf.old capture.now) (λ file.
        HoldsRun F.Fabric (λ a. a ≡ alone_run laid drive.now file) result fabric.old fabric.new) }
    ensures statuses { IfOk result (λ s. IsOneOf (drive_statuses drive.now) (status_code s)) }
    ensures causes { HasCauses result (S.faults shelf.old) (S.faults shelf.new) (K.faults sink.old)
        (K.faults sink.new) }
{
    match drive {
        Drive::Script(script) => {
            let pace = Pace::Script(script.steps());
            run_alone(alloc, laid, &Task { pace, capture }, shelf, sink, fabric)
        }
        Drive::Link(rate) => {
            let pace = Pace::Link(*rate);
            run_alone(alloc, laid, &Task { pace, capture }, shelf, sink, fabric)
        }
        Drive::Forward(rate) => run_forward(alloc, laid, capture, *rate, shelf, sink, fabric),
    }
}

/// Runs a task over a capture file, through the policy's own tree of queues.
fn run_own<S: Shelf, K: Sink>(
    alloc: Global,
    policy: &Policy,
    task: &Task<'_, '_>,
    shelf: &mut S,
    sink: &mut K,
) -> Result<Status, Stop>
    requires lent { IsTrue (S.lends shelf.old task.now.capture.now) }
    requires bounded { IsBounded task.now.pace }

    ensures answer { IfSome (S.content shelf.old task.now.capture.now) (λ file.
        IsTold (λ a. a ≡ direct_run policy.now (pace_of task.now.pace) file) result
        (K.written sink.old) (K.written sink.new)) }
    ensures statuses { IfOk result (λ s. IsOneOf run_statuses (status_code s)) }
    ensures causes { HasCauses result (S.faults shelf.old) (S.faults shelf.new) (K.faults sink.old)
        (K.faults sink.new) }
{
    Ok(Status::of_run(direct(alloc, policy, task, shelf, sink)?))
}

/// Writes a text as the whole output.
fn write_text<K: Sink>(alloc: Global, text: &[u8], sink: &mut K) -> Result<Status, Stop>
    ensures status { IfOk result (λ s. s ≡ Status.Done) }
    ensures text { OnOk result (Appended (K.written sink.old) (K.written sink.new) text.now) }
    ensures part { OnErr result (AppendedPrefix (K.written sink.old) (K.written sink.new)
        text.now) }
    ensures sink_cause { IsErrOf result Stop.Sink → Rose (K.faults sink.old) (K.faults sink.new) }
    ensures sink_later { K.faults sink.old ≤ K.faults sink.new }
    ensures reads_nothing { IsErrOf result Stop.Source → ⊥ }
{
    write(alloc, text, sink)?;
    Ok(Status::Done)
}

/// Does what the inputs of a command decided: writes a text, or runs the packets of a capture or of
/// a load. The fabric is unchanged until the start of the capture is accepted.
pub fn execute<S: Shelf, K: Sink, F: Fabric, T: Tap>(
    alloc: Global,
    job: Job<'_>,
    shelf: &mut S,
    sink: &mut K,
    fabric: &mut F,
    taps: &mut Vec<T>,
) -> Result<Status, Stop>
    requires lent { AreLent (S.lends shelf.old) (job_files job) }
    requires can { CanDo job }
    requires counts { CanCount F.Fabric fabric.old }

    ensures answer { WhereTold (S.content shelf.old) (job_files job.entry) (λ contents.
        IsTold (IsJobOutput contents (entries T.kind_of T.state_of taps.old.items) job.entry) result
        (K.written sink.old) (K.written sink.new)) }
    ensures left { WhereTold (S.content shelf.old) (job_files job.entry) (λ contents.
        IsLeftSo F.Fabric (job_taps job.entry) (IsJobOutput contents (entries T.kind_of T.state_of taps.old.items) job.entry)
        result fabric.old fabric.new
        (entries T.kind_of T.state_of taps.old.items) (entries T.kind_of T.state_of taps.new.items)) }
    ensures fewer { vec_len taps.new ≤ vec_len taps.old }
    ensures statuses { IfOk result (λ s. IsOneOf (job_statuses job.entry) (status_code s)) }
    ensures untouched { LeavesFabric job.entry → IsAsItWas F.Fabric fabric.old fabric.new }
    ensures unshown { LeavesTaps job.entry
        → entries T.kind_of T.state_of taps.new.items ≡ entries T.kind_of T.state_of taps.old.items }
    ensures no_files { job_files job.entry ≡ [] → IsErrOf result Stop.Source → ⊥ }
    ensures causes { HasCauses result (S.faults shelf.old) (S.faults shelf.new) (K.faults sink.old)
        (K.faults sink.new) }
{
    match job {
        Job::Write(text) => write_text(alloc, &text, sink),
        Job::Own(policy, script, capture) => {
            let pace = Pace::Script(script.steps());
            run_own(alloc, &policy, &Task { pace, capture }, shelf, sink)
        }
        Job::Watched(laid, script, named, capture) => {
            let pace = Pace::Script(script.steps());
            let task = Task { pace, capture };
            run_watched(alloc, laid, named, &task, shelf, sink, fabric, taps)
        }
        Job::Alone(laid, drive, capture) => {
            run_driven(alloc, laid, &drive, capture, shelf, sink, fabric)
        }
        Job::Load(load) => soak_load(alloc, load, sink, fabric),
    }
}
