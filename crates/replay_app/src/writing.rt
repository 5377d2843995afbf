//! Writing whole texts.
ghost use Rattle.std.specs.Prelude.{◌≡◌, ◌≤◌, ◌++◌, IfOk, OnOk, OnErr, IsErrOf};
ghost use Rattle.outside_core.specs.Faults.{Rose};
ghost use Rattle.outside_core.specs.Written.{Appended, AppendedPrefix};
ghost use Rattle.report_core.specs.Faults.{word_of};
ghost use Rattle.outside_core.specs.Report.{fault_line};
ghost use Rattle.replay_app.specs.Answer.{refusal};
ghost use Rattle.replay_app.specs.Decided.{rejected};
ghost use Rattle.replay_app.specs.Statuses.{kind_status};

use crate::not_run::Rejection;
use crate::refusal::Refusal;
use crate::status::Status;
use outside_core::{Sink, Stop};
use report_core::{FaultKind, Report, write_fault};
use std::alloc::Global;

/// Writes the line of an error as the whole text.
pub fn refuse<K: Sink>(
    alloc: Global,
    sink: &mut K,
    kind: FaultKind,
    cause: Refusal,
) -> Result<Status, Stop>
    ensures status { IfOk result (λ s. s ≡ kind_status kind) }
    ensures text { OnOk result (Appended (K.written sink.old) (K.written sink.new)
        (refusal kind cause.code cause.place).text) }
    ensures part { OnErr result (AppendedPrefix (K.written sink.old) (K.written sink.new)
        (refusal kind cause.code cause.place).text) }
    ensures sink_cause { IsErrOf result Stop.Sink → Rose (K.faults sink.old) (K.faults sink.new) }
    ensures sink_later { K.faults sink.old ≤ K.faults sink.new }
    ensures reads_nothing { IsErrOf result Stop.Source → ⊥ }
{
    write_fault(alloc, sink, kind, cause.code, u64::from(cause.place))?;
    Ok(Status::refused(kind))
}

/// Writes a text, followed by the line of an error.
pub fn refuse_behind<K: Sink>(
    alloc: Global,
    text: &[u8],
    sink: &mut K,
    kind: FaultKind,
    cause: Refusal,
) -> Result<Status, Stop>
    ensures status { IfOk result (λ s. s ≡ kind_status kind) }
    ensures text { OnOk result (Appended (K.written sink.old) (K.written sink.new)
        (text.now ++ fault_line (word_of kind) cause.code cause.place)) }
    ensures part { OnErr result (AppendedPrefix (K.written sink.old) (K.written sink.new)
        (text.now ++ fault_line (word_of kind) cause.code cause.place)) }
    ensures sink_cause { IsErrOf result Stop.Sink → Rose (K.faults sink.old) (K.faults sink.new) }
    ensures sink_later { K.faults sink.old ≤ K.faults sink.new }
    ensures reads_nothing { IsErrOf result Stop.Source → ⊥ }
{
    let mut report = Report::new(alloc)?;
    report.piece(sink, text)?;
    report.fault(sink, kind, cause.code, u64::from(cause.place))?;
    report.finish(sink)?;
    Ok(Status::refused(kind))
}

/// Writes the whole text.
pub fn write<K: Sink>(alloc: Global, text: &[u8], sink: &mut K) -> Result<(), Stop>
    ensures text { OnOk result (Appended (K.written sink.old) (K.written sink.new) text.now) }
    ensures part { OnErr result (AppendedPrefix (K.written sink.old) (K.written sink.new)
        text.now) }
    ensures sink_cause { IsErrOf result Stop.Sink → Rose (K.faults sink.old) (K.faults sink.new) }
    ensures sink_later { K.faults sink.old ≤ K.faults sink.new }
    ensures reads_nothing { IsErrOf result Stop.Source → ⊥ }
{
    let mut report = Report::new(alloc)?;
    report.piece(sink, text)?;
    report.finish(sink)?;
    Ok(())
}

/// Writes the line of an input that is rejected, after the text before it.
pub fn write_rejection<K: Sink>(
    alloc: Global,
    rejection: &Rejection,
    sink: &mut K,
) -> Result<Status, Stop>
    ensures status { IfOk result (λ s. s ≡ kind_status rejection.now.kind) }
    ensures text { OnOk result (Appended (K.written sink.old) (K.written sink.new)
        (rejected rejection.now).text) }
    ensures part { OnErr result (AppendedPrefix (K.written sink.old) (K.written sink.new)
        (rejected rejection.now).text) }
    ensures sink_cause { IsErrOf result Stop.Sink → Rose (K.faults sink.old) (K.faults sink.new) }
    ensures sink_later { K.faults sink.old ≤ K.faults sink.new }
    ensures reads_nothing { IsErrOf result Stop.Source → ⊥ }
{
    match &rejection.before {
        Some(text) => refuse_behind(alloc, text, sink, rejection.kind, rejection.cause),
        None => refuse(alloc, sink, rejection.kind, rejection.cause),
    }
}
