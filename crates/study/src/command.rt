//! The entry point.
ghost use Rattle.std.specs.Prelude.{◌≡◌, ◌<◌, ◌≤◌, ◌^◌, IfOk};
ghost use Rattle.outside_core.specs.Faults.{Rose};
ghost use Rattle.sched_capture.specs.Placements.{CanCount};
ghost use Rattle.replay_app.specs.Causes.{HasCauses};
ghost use Rattle.replay_app.specs.Statuses.{IsOneOf, status_code};
ghost use Rattle.replay_app.specs.Words.{AreLent, WhereTold};
ghost use Rattle.study.specs.Files.{study_files, study_statuses, HasLinkRate, CanStudyEnd, IsSummedUp};
ghost use Rattle.study.specs.Studied.{IsAnswered, IsStudied};
ghost use Rattle.study.specs.SumRuns.{IsToldOr};

use crate::execution::execute_study;
use crate::parts::Study;
use crate::preparation::prepare_study;
use fabric_core::Fabric;
use outside_core::{Shelf, Sink, Stop};
use replay_app::{NotRun, Status, stop_status, write_rejection};
use std::alloc::Global;

/// Decides what a study runs, and runs it.
fn answer<S: Shelf, K: Sink, F: Fabric>(
    alloc: Global,
    study: &Study<'_>,
    shelf: &mut S,
    sink: &mut K,
    fabric: &mut F,
) -> Result<Status, Stop>
    requires lent { AreLent (S.lends shelf.old) (study_files study.now) }
    requires rate { HasLinkRate study.now.drive }
    requires counts { CanCount F.Fabric fabric.old }

    ensures answer { WhereTold (S.content shelf.old) (study_files study.now) (λ contents.
        IsToldOr (IsSummedUp study.now.drive study.now.view) (IsStudied study.now contents)
        result (K.written sink.old) (K.written sink.new)) }
    ensures statuses { IfOk result (λ s. IsOneOf (study_statuses study.now) (status_code s)) }
    ensures causes { HasCauses result (S.faults shelf.old) (S.faults shelf.new) (K.faults sink.old)
        (K.faults sink.new) }
{
    match prepare_study(alloc, study, shelf) {
        Ok(prepared) => execute_study(alloc, study, prepared, shelf, sink, fabric),
        Err(NotRun::Rejected(rejection)) => write_rejection(alloc, &rejection, sink),
        Err(NotRun::Stopped(stop)) => Err(stop),
    }
}

/// Runs a study and returns the program's exit status, which has the meaning that it has for
/// `replay_app::run`. If the study has a target, the packets go through the fabric. Otherwise they
/// go through the policy's own tree of queues. The output is the same.
pub fn study<S: Shelf, K: Sink, F: Fabric>(
    alloc: Global,
    study: &Study<'_>,
    shelf: &mut S,
    sink: &mut K,
    fabric: &mut F,
) -> u8
    requires lent { AreLent (S.lends shelf.old) (study_files study.now) }
    requires rate { HasLinkRate study.now.drive }
    requires pushes { F.pushed fabric.old < 2 ^ 61 }
    requires pops { F.popped fabric.old < 2 ^ 61 }

    // If file contents are known to the contract: the output is written whole with its status, or a
    // prefix of it with status 8, 9 or 10. If a sum has no room, nothing is written, with status 14.
    ensures answer { WhereTold (S.content shelf.old) (study_files study.now) (λ contents.
        IsAnswered study.now contents result (K.written sink.old) (K.written sink.new)) }

    // For any file contents: the guarantees that follow from the study alone.
    ensures statuses { CanStudyEnd study.now result }
    ensures shelf_cause { result ≡ 8 → Rose (S.faults shelf.old) (S.faults shelf.new) }
    ensures sink_cause { result ≡ 9 → Rose (K.faults sink.old) (K.faults sink.new) }
    ensures sink_later { K.faults sink.old ≤ K.faults sink.new }
{
    match answer(alloc, study, shelf, sink, fabric) {
        Ok(status) => status.code(),
        Err(stop) => stop_status(stop),
    }
}
