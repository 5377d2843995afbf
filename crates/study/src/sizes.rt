//! Runs that say how large the target's queues get.
ghost use Rattle.std.specs.Prelude.{◌≡◌, ◌≤◌, ◌++◌, IfOk, OnOk, OnErr, IsErrOf};
ghost use Rattle.outside_core.specs.Faults.{Rose};
ghost use Rattle.outside_core.specs.Written.{Appended, AppendedPrefix};
ghost use Rattle.study.specs.SumRuns.{ending_line};
ghost use Rattle.study.specs.SizeRuns.{shown, size_status};

use crate::parts::Measure;
use crate::sums::{Form, write_ended};
use outside_core::{Sink, Stop};
use replay_app::Status;
use sched_defs::Ending;
use size_core::{Overflow, Sizes, put_json, put_text};
use std::alloc::{AllocError, Global};

/// Returns the status of a run with this ending, in which this push was the first to pass a limit.
fn size_status(overflow: &Option<Overflow>, ending: Ending) -> Status
    ensures { result ≡ size_status overflow.now ending }
{
    match (overflow, ending) {
        (Some(_), Ending::Whole(_)) => Status::OverLimit,
        _ => Status::of_run(ending),
    }
}

/// Returns the sizes in this form. Fails if out of memory.
fn sizes_in(
    alloc: Global,
    form: Form,
    measure: &Measure,
    sizes: &Sizes,
) -> Result<Vec<u8>, AllocError>
    ensures { IfOk result (λ text. text.items ≡ shown form sizes.now measure.now.widths) }
{
    match form {
        Form::Text => put_text(alloc, sizes, measure.widths),
        Form::Json => put_json(alloc, sizes, measure.widths),
    }
}

/// Writes the sizes of a run, followed by the line of the error at which it ended.
pub fn tell_sizes<K: Sink>(
    alloc: Global,
    form: Form,
    measure: &Measure,
    sizes: &Sizes,
    ending: Ending,
    sink: &mut K,
) -> Result<Status, Stop>
    ensures status { IfOk result (λ s. s ≡ size_status sizes.now.overflow ending) }
    ensures text { OnOk result (Appended (K.written sink.old) (K.written sink.new)
        (shown form sizes.now measure.now.widths ++ ending_line ending)) }
    ensures part { OnErr result (AppendedPrefix (K.written sink.old) (K.written sink.new)
        (shown form sizes.now measure.now.widths ++ ending_line ending)) }
    ensures sink_cause { IsErrOf result Stop.Sink → Rose (K.faults sink.old) (K.faults sink.new) }
    ensures sink_later { K.faults sink.old ≤ K.faults sink.new }
    ensures reads_nothing { IsErrOf result Stop.Source → ⊥ }
{
    let text = sizes_in(alloc, form, measure, sizes)?;
    write_ended(alloc, &text, ending, sink)?;
    Ok(size_status(&sizes.overflow, ending))
}
