//! Runs that are summed up.
ghost use Rattle.std.specs.Prelude.{◌≡◌, ◌<◌, ◌≤◌, ◌^◌, ◌++◌, ◌⊎◌, [], IfOk, IsTrue, OnOk, OnErr, IsErrOf};
ghost use Rattle.outside_core.specs.Faults.{Rose};
ghost use Rattle.outside_core.specs.Kept.{KeepsSink};
ghost use Rattle.outside_core.specs.Written.{Appended, AppendedPrefix};
ghost use Rattle.report_core.specs.Gathered.{Tells, CutsOff};
ghost use Rattle.sched_run.specs.Steps.{pace_of, IsBounded};
ghost use Rattle.replay_app.specs.Statuses.{run_status};
ghost use Rattle.study.specs.Labels.{held_labels};
ghost use Rattle.study.specs.SumRuns.{sum_rate, ending_line, IsTextOf, AreSumsWritten, LacksRoom};

use crate::labels::class_labels;
use outside_core::{Sink, Stop};
use policy_text::Lines;
use replay_app::Status;
use report_core::{FaultKind, Report, WriteFault};
use sched_defs::{Ending, LinkRate, PAST_LAST};
use sched_run::Pace;
use std::alloc::{AllocError, Global};
use summary_core::{Label, Summary, groups_of, put_json, put_text};

/// The form in which sums are written.
#[derive(Clone, Copy, PartialEq, Eq, Debug)]
pub enum Form {
    Text,
    Json,
}

/// Returns the link's rate. A script has no link, and its departures have no times.
pub fn sum_rate(pace: Pace<'_>) -> LinkRate
    ensures rate { result ≡ sum_rate (pace_of pace.entry) }
{
    match pace {
        Pace::Script(_) => LinkRate::plain(1),
        Pace::Link(rate) => rate,
    }
}

/// Adds the line of the error at which the run ended, if there is one.
fn put_ending<K: Sink>(report: &mut Report, sink: &mut K, ending: Ending) -> Result<(), WriteFault>
    requires live { IsTrue report.old.live }

    ensures ok { OnOk result (Tells K.written sink.old report.old sink.new report.new
        (ending_line ending)) }
    ensures cut { OnErr result (CutsOff K.written sink.old report.old sink.new
        (ending_line ending)) }
    ensures kept { KeepsSink K.written K.faults sink.old sink.new }
    ensures cause { OnErr result (Rose (K.faults sink.old) (K.faults sink.new)) }
    ensures live { OnOk result (IsTrue report.new.live) }
{
    match ending {
        Ending::Whole(_) => Ok(()),
        Ending::BadCapture(code, place) => report.fault(sink, FaultKind::Capture, code, place),
        Ending::PastLast(event) => report.fault(sink, FaultKind::Script, PAST_LAST, event),
    }
}

/// Writes a text, followed by the line of the error at which the run ended.
pub fn write_ended<K: Sink>(
    alloc: Global,
    text: &[u8],
    ending: Ending,
    sink: &mut K,
) -> Result<Status, Stop>
    ensures status { IfOk result (λ s. s ≡ run_status ending) }
    ensures text { OnOk result (Appended (K.written sink.old) (K.written sink.new)
        (text.now ++ ending_line ending)) }
    ensures part { OnErr result (AppendedPrefix (K.written sink.old) (K.written sink.new)
        (text.now ++ ending_line ending)) }
    ensures sink_cause { IsErrOf result Stop.Sink → Rose (K.faults sink.old) (K.faults sink.new) }
    ensures sink_later { K.faults sink.old ≤ K.faults sink.new }
    ensures reads_nothing { IsErrOf result Stop.Source → ⊥ }
{
    let mut report = Report::new(alloc)?;
    report.piece(sink, text)?;
    put_ending(&mut report, sink, ending)?;
    report.finish(sink)?;
    Ok(Status::of_run(ending))
}

/// Returns the sums of a run in this form. Fails if out of memory.
fn sums_text(
    alloc: Global,
    form: Form,
    lines: &Lines,
    leaves: &[Label],
    summary: &mut Summary,
) -> Result<Vec<u8>, AllocError>
    ensures { IfOk result (λ text. IsTextOf form summary.old leaves.now (held_labels lines.now.held)
        text.items) }
{
    let classes = class_labels(alloc, lines)?;
    let groups = groups_of(alloc, summary, leaves, &classes)?;
    match form {
        Form::Text => put_text(alloc, &groups),
        Form::Json => put_json(alloc, &groups),
    }
}

/// Writes the sums of a run, followed by the line of the error at which it ended. If a sum had no
/// room, nothing is written.
pub fn tell_sums<K: Sink>(
    alloc: Global,
    form: Form,
    lines: &Lines,
    leaves: &[Label],
    summary: &mut Summary,
    ending: Ending,
    sink: &mut K,
) -> Result<Status, Stop>
    ensures room { IsTrue summary.old.whole ⊎
        LacksRoom (Unit {0}) result (K.written sink.old) (K.written sink.new) }
    ensures status { IsTrue summary.old.whole → IfOk result (λ s. s ≡ run_status ending) }
    ensures text { IsTrue summary.old.whole → OnOk result
        (AreSumsWritten form summary.old leaves.now (held_labels lines.now.held) ending
        (Appended (K.written sink.old) (K.written sink.new))) }
    ensures part { IsTrue summary.old.whole → OnErr result
        (AreSumsWritten form summary.old leaves.now (held_labels lines.now.held) ending
        (AppendedPrefix (K.written sink.old) (K.written sink.new)) ⊎ Appended (K.written sink.old) (K.written sink.new) []) }
    ensures statuses { IfOk result (λ s. (s ≡ run_status ending) ⊎ (s ≡ Status.LateStart)) }
    ensures sink_cause { IsErrOf result Stop.Sink → Rose (K.faults sink.old) (K.faults sink.new) }
    ensures sink_later { K.faults sink.old ≤ K.faults sink.new }
    ensures reads_nothing { IsErrOf result Stop.Source → ⊥ }
{
    if !summary.is_whole() {
        return Ok(Status::LateStart);
    }
    let text = sums_text(alloc, form, lines, leaves, summary)?;
    write_ended(alloc, &text, ending, sink)
}
