//! Runs whose outcomes are written in the form that a view names.
ghost use Rattle.std.specs.Prelude.{◌≡◌, ◌<◌, ◌∷◌, IfOk, IfSome, IsTrue, OnOk, OnErr, IsErrOf};
ghost use Rattle.outside_core.specs.Faults.{Rose};
ghost use Rattle.outside_core.specs.Kept.{KeepsSink};
ghost use Rattle.outside_core.specs.Written.{Appended};
ghost use Rattle.outside_core.specs.Text.{IsCut};
ghost use Rattle.report_core.specs.Gathered.{text_of};
ghost use Rattle.policy_defs.specs.Accepted.{IsAccepted};
ghost use Rattle.sched_defs.specs.SendTime.{IsRate};
ghost use Rattle.sched_run.specs.Steps.{pace_of, IsBounded};
ghost use Rattle.sched_capture.specs.Answers.{paced_answer};
ghost use Rattle.event_json.specs.Json.{json_end};
ghost use Rattle.replay_app.specs.Answer.{IsTold};
ghost use Rattle.replay_app.specs.Output.{direct_run};
ghost use Rattle.replay_app.specs.Statuses.{IsOneOf, pace_statuses, forward_statuses, run_status, status_code};
ghost use Rattle.study.specs.JsonRuns.{rate_in, json_run};
ghost use Rattle.study.specs.Files.{IsSum, view_statuses};
ghost use Rattle.study.specs.SumRuns.{IsSummed, IsToldOr, HasNames, render};
ghost use Rattle.study.specs.SizeRuns.{IsSized, IsSizedIn, shown};
ghost use Rattle.study.specs.Studied.{IsViewed, departures};
ghost use Rattle.sched_capture.specs.Placements.{laid_by, CanCount};
ghost use Rattle.study.specs.Places.{policy_in, laid_of, policy_file_in};
ghost use Rattle.replay_app.specs.Causes.{HasCauses};

use crate::labels::{leaf_table, leaves_of};
use crate::parts::{Measure, View};
use crate::place::Place;
use crate::recorded::{Recorded, record_own};
use crate::runs::{record, write_departures, write_report};
use crate::sizes::tell_sizes;
use crate::sums::{Form, sum_rate, tell_sums};
use event_json::JsonReport;
use fabric_core::Fabric;
use outside_core::{Shelf, Sink, Stop};
use policy_core::Policy;
use policy_text::Lines;
use replay_app::Status;
use sched_capture::{Ending, LaidPolicy, Task};
use sched_defs::LinkRate;
use sched_run::Pace;
use size_core::Sizing;
use std::alloc::Global;
use summary_core::Summary;

/// Runs a task, and writes its report.
fn view_report<S: Shelf, K: Sink, F: Fabric>(
    alloc: Global,
    place: Place,
    task: &Task<'_, '_>,
    shelf: &mut S,
    sink: &mut K,
    fabric: &mut F,
) -> Result<Status, Stop>
    requires lent { IsTrue (S.lends shelf.old task.now.capture.now) }
    requires bounded { IsBounded task.now.pace }
    requires counts { CanCount F.Fabric fabric.old }

    ensures answer { IfSome (S.content shelf.old task.now.capture.now) (λ file.
        IsTold (λ a. a ≡ direct_run (policy_in place) (pace_of task.now.pace) file) result
        (K.written sink.old) (K.written sink.new)) }
    ensures statuses { IfOk result (λ s. IsOneOf (pace_statuses task.now.pace) (status_code s)) }
    ensures causes { HasCauses result (S.faults shelf.old) (S.faults shelf.new) (K.faults sink.old)
        (K.faults sink.new) }
{
    let ending = write_report(alloc, place, task, shelf, sink, fabric)?;
    Ok(Status::of_run(ending))
}

/// Returns the link's rate, if a link paces the run.
fn rate_of(pace: Pace<'_>) -> Option<LinkRate>
    requires bounded { IsBounded pace }
    ensures rate { result ≡ rate_in (pace_of pace.entry) }
    ensures range { IfSome result IsRate }
{
    match pace {
        Pace::Script(_) => None,
        Pace::Link(rate) => Some(rate),
    }
}

/// Writes the last line of a run, and all lines that the recorder still buffers.
fn close_json<K: Sink>(recorder: JsonReport, sink: &mut K, ending: Ending) -> Result<Status, Stop>
    requires live { IsTrue recorder.report.live }

    ensures status { IfOk result (λ s. s ≡ run_status ending) }
    ensures whole { OnOk result (Appended (text_of (K.written sink.old) recorder.report)
        (K.written sink.new) (json_end recorder.counts ending)) }
    ensures cut { OnErr result (IsCut (text_of (K.written sink.old) recorder.report)
        (json_end recorder.counts ending) (K.written sink.new)) }
    ensures kept { KeepsSink K.written K.faults sink.old sink.new }
    ensures sink_cause { IsErrOf result Stop.Sink → Rose (K.faults sink.old) (K.faults sink.new) }
    ensures reads_nothing { IsErrOf result Stop.Source → ⊥ }
{
    let mut recorder = recorder;
    recorder.finish(sink, ending)?;
    Ok(Status::of_run(ending))
}

/// Runs a task, and writes its outcomes as JSON lines.
fn view_json<S: Shelf, K: Sink, F: Fabric>(
    alloc: Global,
    place: Place,
    task: &Task<'_, '_>,
    shelf: &mut S,
    sink: &mut K,
    fabric: &mut F,
) -> Result<Status, Stop>
    requires lent { IsTrue (S.lends shelf.old task.now.capture.now) }
    requires bounded { IsBounded task.now.pace }
    requires counts { CanCount F.Fabric fabric.old }

    ensures answer { IfSome (S.content shelf.old task.now.capture.now) (λ file.
        IsTold (λ a. a ≡ json_run (policy_in place) (pace_of task.now.pace) file) result
        (K.written sink.old) (K.written sink.new)) }
    ensures statuses { IfOk result (λ s. IsOneOf (pace_statuses task.now.pace) (status_code s)) }
    ensures causes { HasCauses result (S.faults shelf.old) (S.faults shelf.new) (K.faults sink.old)
        (K.faults sink.new) }
{
    let recorder = JsonReport::new(alloc, rate_of(task.pace))?;
    let recorded = record(alloc, place, task, recorder, shelf, sink, fabric)?;
    match recorded {
        Recorded::Whole(ending, recorder) => close_json(recorder, sink, ending),
        Recorded::Refused(ending) => Ok(Status::of_run(ending)),
    }
}

/// Runs a task, and writes its sums in this form.
fn view_sums<S: Shelf, K: Sink, F: Fabric>(
    alloc: Global,
    form: Form,
    lines: &Lines,
    place: Place,
    task: &Task<'_, '_>,
    shelf: &mut S,
    sink: &mut K,
    fabric: &mut F,
) -> Result<Status, Stop>
    requires lent { IsTrue (S.lends shelf.old task.now.capture.now) }
    requires bounded { IsBounded task.now.pace }
    requires counts { CanCount F.Fabric fabric.old }

    ensures answer { HasNames (policy_file_in lines.now place) → IfSome (S.content shelf.old
        task.now.capture.now) (λ file.
        IsToldOr (Unit {0}) (IsSummed (render form) (policy_file_in lines.now place)
        (pace_of task.now.pace) (paced_answer (policy_in place) (pace_of task.now.pace) file))
        result (K.written sink.old) (K.written sink.new)) }
    ensures statuses { IfOk result (λ s. IsOneOf (14 ∷ pace_statuses task.now.pace)
        (status_code s)) }
    ensures causes { HasCauses result (S.faults shelf.old) (S.faults shelf.new) (K.faults sink.old)
        (K.faults sink.new) }
{
    let policy = place.policy();
    let leaves = leaves_of(alloc, policy)?;
    let table = leaf_table(alloc, policy, &leaves)?;
    let summary = Summary::new(alloc, sum_rate(task.pace), table, leaves.labels.len())?;
    let recorded = record(alloc, place, task, summary, shelf, sink, fabric)?;
    match recorded {
        Recorded::Whole(ending, mut summary) => {
            tell_sums(
                alloc,
                form,
                lines,
                &leaves.labels,
                &mut summary,
                ending,
                sink,
            )
        }
        Recorded::Refused(ending) => Ok(Status::of_run(ending)),
    }
}

/// Says that a policy is an accepted one. Does nothing.
fn accept(policy: &Policy)
    ensures accepted { IsAccepted policy.now.policy }
{
    let _ = policy.classes();
}

/// Runs a task through the policy's own tree, and says in this form how large the target's queues
/// get. The recorder has a copy of these queues.
fn view_sizes<S: Shelf, K: Sink>(
    alloc: Global,
    form: Form,
    measure: &Measure,
    laid: &LaidPolicy,
    task: &Task<'_, '_>,
    shelf: &mut S,
    sink: &mut K,
) -> Result<Status, Stop>
    requires lent { IsTrue (S.lends shelf.old task.now.capture.now) }
    requires bounded { IsBounded task.now.pace }

    ensures answer { IfSome (S.content shelf.old task.now.capture.now) (λ file.
        IsTold (IsSized (shown form) measure.now (laid_by laid.now) laid.now.policy.policy
        (paced_answer laid.now.policy (pace_of task.now.pace) file)) result
        (K.written sink.old) (K.written sink.new)) }
    ensures statuses { IfOk result (λ s. IsOneOf (1 ∷ pace_statuses task.now.pace)
        (status_code s)) }
    ensures causes { HasCauses result (S.faults shelf.old) (S.faults shelf.new) (K.faults sink.old)
        (K.faults sink.new) }
{
    let policy = laid.policy();
    let sizing = Sizing::new(
        alloc,
        policy,
        laid.map(),
        laid.target(),
        measure.limits,
        measure.stores,
    )?;
    accept(policy);
    let recorded = record_own(alloc, policy, task, sizing, shelf, sink)?;
    match recorded {
        Recorded::Whole(ending, sizing) => {
            let sizes = sizing.into_sizes(alloc)?;
            tell_sizes(alloc, form, measure, &sizes, ending, sink)
        }
        Recorded::Refused(ending) => Ok(Status::of_run(ending)),
    }
}

/// The same if the policy's tree is laid into a target. Otherwise writes the report.
fn view_sizes_in<S: Shelf, K: Sink, F: Fabric>(
    alloc: Global,
    form: Form,
    measure: &Measure,
    place: Place,
    task: &Task<'_, '_>,
    shelf: &mut S,
    sink: &mut K,
    fabric: &mut F,
) -> Result<Status, Stop>
    requires lent { IsTrue (S.lends shelf.old task.now.capture.now) }
    requires bounded { IsBounded task.now.pace }
    requires counts { CanCount F.Fabric fabric.old }

    ensures answer { IfSome (S.content shelf.old task.now.capture.now) (λ file.
        IsTold (IsSizedIn (shown form) measure.now (laid_of place) (policy_in place)
        (pace_of task.now.pace) file) result (K.written sink.old) (K.written sink.new)) }
    ensures statuses { IfOk result (λ s. IsOneOf (1 ∷ pace_statuses task.now.pace)
        (status_code s)) }
    ensures causes { HasCauses result (S.faults shelf.old) (S.faults shelf.new) (K.faults sink.old)
        (K.faults sink.new) }
{
    match place {
        Place::Own(policy) => view_report(alloc, Place::Own(policy), task, shelf, sink, fabric),
        Place::Laid(laid) => view_sizes(alloc, form, measure, &laid, task, shelf, sink),
    }
}

/// Runs a task, and writes its outcomes in the form of the view.
pub fn write_view<S: Shelf, K: Sink, F: Fabric>(
    alloc: Global,
    view: View,
    lines: &Lines,
    place: Place,
    task: &Task<'_, '_>,
    shelf: &mut S,
    sink: &mut K,
    fabric: &mut F,
) -> Result<Status, Stop>
    requires lent { IsTrue (S.lends shelf.old task.now.capture.now) }
    requires bounded { IsBounded task.now.pace }
    requires counts { CanCount F.Fabric fabric.old }

    ensures answer { HasNames (policy_file_in lines.now place) → IfSome (S.content shelf.old
        task.now.capture.now) (λ file.
        IsToldOr (IsSum view) (IsViewed view (laid_of place) (policy_file_in lines.now place)
        (pace_of task.now.pace) file) result (K.written sink.old) (K.written sink.new)) }
    ensures statuses { IfOk result (λ s. IsOneOf (view_statuses view (pace_statuses task.now.pace))
        (status_code s)) }
    ensures causes { HasCauses result (S.faults shelf.old) (S.faults shelf.new) (K.faults sink.old)
        (K.faults sink.new) }
{
    match view {
        View::Report => view_report(alloc, place, task, shelf, sink, fabric),
        View::Json => view_json(alloc, place, task, shelf, sink, fabric),
        View::Summary => view_sums(alloc, Form::Text, lines, place, task, shelf, sink, fabric),
        View::JsonSummary => view_sums(alloc, Form::Json, lines, place, task, shelf, sink, fabric),
        View::Size(measure) => view_sizes_in(
            alloc,
            Form::Text,
            &measure,
            place,
            task,
            shelf,
            sink,
            fabric,
        ),
        View::JsonSize(measure) => view_sizes_in(
            alloc,
            Form::Json,
            &measure,
            place,
            task,
            shelf,
            sink,
            fabric,
        ),
    }
}

/// Runs a link over a capture, and writes the departures as a capture.
pub fn view_departures<S: Shelf, K: Sink, F: Fabric>(
    alloc: Global,
    place: Place,
    capture: &str,
    rate: LinkRate,
    shelf: &mut S,
    sink: &mut K,
    fabric: &mut F,
) -> Result<Status, Stop>
    requires lent { IsTrue (S.lends shelf.old capture.now) }
    requires rate { IsRate rate }
    requires counts { CanCount F.Fabric fabric.old }

    ensures answer { IfSome (S.content shelf.old capture.now) (λ file.
        IsTold (λ a. a ≡ departures (policy_in place) rate file) result
        (K.written sink.old) (K.written sink.new)) }
    ensures statuses { IfOk result (λ s. IsOneOf forward_statuses (status_code s)) }
    ensures causes { HasCauses result (S.faults shelf.old) (S.faults shelf.new) (K.faults sink.old)
        (K.faults sink.new) }
{
    let ending = write_departures(alloc, place, capture, rate, shelf, sink, fabric)?;
    Ok(Status::of_forward(ending))
}
