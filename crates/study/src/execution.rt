//! The second phase of a study: it runs.
ghost use Rattle.std.specs.Prelude.{◌≡◌, ◌≤◌, IfOk, IfSome, IsTrue};
ghost use Rattle.events_core.specs.Script.{most_count};
ghost use Rattle.events_core.specs.Steps.{counts_of};
ghost use Rattle.sched_capture.specs.Placements.{CanCount};
ghost use Rattle.replay_app.specs.Causes.{HasCauses};
ghost use Rattle.replay_app.specs.Statuses.{IsOneOf, status_code};
ghost use Rattle.study.specs.Files.{HasLinkRate, IsSummedUp, drive_statuses};
ghost use Rattle.study.specs.Places.{policy_file_in};
ghost use Rattle.study.specs.Prepared.{steps_of, IsRunOf};
ghost use Rattle.study.specs.SumRuns.{HasNames, IsToldOr};

use crate::parts::{Drive, Study};
use crate::preparation::Prepared;
use crate::views::{view_departures, write_view};
use events_core::{Script, Step};
use fabric_core::Fabric;
use outside_core::{Shelf, Sink, Stop};
use replay_app::Status;
use sched_capture::Task;
use sched_run::Pace;
use std::alloc::Global;

/// Returns the steps of a script, or none.
fn steps_of(script: &Option<Script>) -> &[Step]
    ensures { result.now ≡ steps_of script.now }
{
    match script {
        Some(script) => script.steps(),
        None => &[],
    }
}

/// Runs a study whose inputs are accepted over its capture, and writes the outcomes.
pub fn execute_study<S: Shelf, K: Sink, F: Fabric>(
    alloc: Global,
    study: &Study<'_>,
    prepared: Prepared,
    shelf: &mut S,
    sink: &mut K,
    fabric: &mut F,
) -> Result<Status, Stop>
    requires lent { IsTrue (S.lends shelf.old study.now.capture.now) }
    requires rate { HasLinkRate study.now.drive }
    requires short { counts_of (steps_of prepared.script) ≤ most_count }
    requires counts { CanCount F.Fabric fabric.old }

    ensures answer { HasNames (policy_file_in prepared.lines prepared.place) → IfSome
        (S.content shelf.old study.now.capture.now) (λ file.
        IsToldOr (IsSummedUp study.now.drive study.now.view) (IsRunOf study.now prepared file)
        result (K.written sink.old) (K.written sink.new)) }
    ensures statuses { IfOk result (λ s. IsOneOf (drive_statuses study.now.drive study.now.view)
        (status_code s)) }
    ensures causes { HasCauses result (S.faults shelf.old) (S.faults shelf.new) (K.faults sink.old)
        (K.faults sink.new) }
{
    let Prepared {
        lines,
        place,
        script,
    } = prepared;
    let capture = study.capture;
    let pace = match study.drive {
        Drive::Script(_) => Pace::Script(steps_of(&script)),
        Drive::Link(rate) => Pace::Link(rate),
        Drive::Forward(rate) => {
            return view_departures(alloc, place, capture, rate, shelf, sink, fabric);
        }
    };
    let task = Task { pace, capture };
    write_view(alloc, study.view, &lines, place, &task, shelf, sink, fabric)
}
