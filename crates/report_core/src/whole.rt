//! A report of one line, begun and finished by one call.
ghost use Rattle.std.specs.Prelude.{◌≡◌, IfErr, OnOk, OnErr};
ghost use Rattle.outside_core.specs.Kept.{KeepsSink, HasSinkCause};
ghost use Rattle.outside_core.specs.Written.{Appended, AppendedPrefix};
ghost use Rattle.outside_core.specs.Report.{fault_line};
ghost use Rattle.report_core.specs.Faults.{word_of};

use crate::fault::FaultKind;
use crate::report::Report;
use outside_core::{Sink, Stop};
use std::alloc::Global;

/// Writes the line of a rejected input as the whole report. The position (`place`) is a line,
/// record or event number, or 0 if there is none.
pub fn write_fault<K: Sink>(
    alloc: Global,
    sink: &mut K,
    kind: FaultKind,
    code: u32,
    place: u64,
) -> Result<(), Stop>
    ensures text { OnOk result (Appended (K.written sink.old) (K.written sink.new)
        (fault_line (word_of kind) code place)) }
    ensures part { OnErr result (AppendedPrefix (K.written sink.old) (K.written sink.new)
        (fault_line (word_of kind) code place)) }
    ensures kept { KeepsSink K.written K.faults sink.old sink.new }
    ensures cause { IfErr result (λ stop. HasSinkCause stop K.faults sink.old sink.new) }
{
    let mut report = Report::new(alloc)?;
    report.fault(sink, kind, code, place)?;
    report.finish(sink)?;
    Ok(())
}
