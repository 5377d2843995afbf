//! The first phase of a study: its inputs are read and accepted, or the first one that isn't says
//! why nothing runs. Only the packets of the capture are left for the run.
ghost use Rattle.std.specs.Prelude.{◌≡◌, ◌≤◌, ◌∷◌, ℕ, List, Option, IfOk};
ghost use Rattle.tree_defs.specs.Topology.{topology_of};
ghost use Rattle.outside_core.specs.Kept.{KeepsShelf};
ghost use Rattle.events_core.specs.Script.{most_count};
ghost use Rattle.events_core.specs.Steps.{counts_of};
ghost use Rattle.policy_text_defs.specs.Sense.{Entry};
ghost use Rattle.sched_embedded.specs.Laid.{Laid};
ghost use Rattle.replay_app.specs.Decided.{IsDecided, RejectsWith, StopsReading};
ghost use Rattle.replay_app.specs.Policies as policies;
ghost use Rattle.replay_app.specs.Words.{AreLent, WhereTold};
ghost use Rattle.study.specs.Files.{target_of, with_target, drive_files, study_files, drive_statuses, target_statuses, study_statuses};
ghost use Rattle.study.specs.Places.{policy_in, laid_of, policy_file_in};
ghost use Rattle.study.specs.Prepared.{steps_of, policy_file_as, IsPacedRun, IsRunUnder, IsRunOf};
ghost use Rattle.study.specs.Studied.{IsDriven, InTarget, IsStudied};
ghost use Rattle.study.specs.SumRuns.{HasNames};
ghost use Rattle.study.specs.declared.parts.View.{View};

use crate::parts::{Drive, Study};
use crate::place::Place;
use events_core::Script;
use outside_core::Shelf;
use policy_core::Policy;
use policy_text::Lines;
use replay_app::{NotRun, PolicyFormat, ScriptFormat, TargetFormat, lay, read_input};
use std::alloc::Global;

/// What a study runs once its inputs are accepted, but for the capture, which the run reads.
#[derive(Drop)]
pub struct Prepared {
    /// The statements of the policy, which give its classes their labels.
    pub lines: Lines,
    /// The policy, and the queues through which its packets go.
    pub place: Place,
    /// The script, if one paces the run.
    pub script: Option<Script>,
}

/// Reads the target if the study has one, and lays the tree of its policy there.
fn prepare_place<S: Shelf>(
    alloc: Global,
    policy: Policy,
    study: &Study<'_>,
    shelf: &mut S,
) -> Result<Place, NotRun>
    requires lent { AreLent (S.lends shelf.old) (with_target (target_of study.now)
        (study.now.capture.now ∷ drive_files study.now.drive)) }

    ensures place { WhereTold (S.content shelf.old) (with_target (target_of study.now)
        (study.now.capture.now ∷ drive_files study.now.drive))
        (λ contents. (entries : List Entry) →
        IsDecided (InTarget (target_of study.now) (topology_of policy.policy.tree) contents
        (IsRunUnder study.now contents (policy_file_as entries policy)))
        (λ place. IsRunUnder study.now contents (policy_file_as entries policy) (laid_of place))
        result) }
    ensures policy { IfOk result (λ place. policy_in place ≡ policy) }
    ensures rejects { RejectsWith (target_statuses (target_of study.now)
        (drive_statuses study.now.drive study.now.view)) result }
    ensures kept { KeepsShelf S.lends S.content S.faults shelf.old shelf.new }
    ensures cause { StopsReading result (S.faults shelf.old) (S.faults shelf.new) }
{
    let Some(name) = study.target else {
        return Ok(Place::Own(policy));
    };
    let target = read_input(alloc, &TargetFormat, shelf, name)?;
    Ok(Place::Laid(lay(alloc, policy, target)?))
}

/// Reads the script, if one paces the run.
fn prepare_script<S: Shelf>(
    alloc: Global,
    drive: Drive<'_>,
    shelf: &mut S,
) -> Result<Option<Script>, NotRun>
    requires lent { AreLent (S.lends shelf.old) (drive_files drive) }

    ensures script { WhereTold (S.content shelf.old) (drive_files drive.entry)
        (λ contents. (view : View) (laid : Option Laid) (policy_file : policies.PolicyFile)
        (capture : List ℕ) →
        IsDecided (IsDriven drive.entry view laid policy_file capture contents)
        (λ script. IsPacedRun drive.entry view laid policy_file (steps_of script) capture) result) }
    ensures short { IfOk result (λ script. counts_of (steps_of script) ≤ most_count) }
    ensures rejects { (view : View) → RejectsWith (drive_statuses drive.entry view) result }
    ensures kept { KeepsShelf S.lends S.content S.faults shelf.old shelf.new }
    ensures cause { StopsReading result (S.faults shelf.old) (S.faults shelf.new) }
{
    let Drive::Script(name) = drive else {
        return Ok(None);
    };
    let script = read_input(alloc, &ScriptFormat, shelf, name)?;
    Ok(Some(script))
}

/// Reads the inputs of a study in the order in which they can be rejected, up to the capture.
/// Returns what then runs, or why nothing does: the first input that is rejected, or an error of a
/// file or of memory.
pub fn prepare_study<S: Shelf>(
    alloc: Global,
    study: &Study<'_>,
    shelf: &mut S,
) -> Result<Prepared, NotRun>
    requires lent { AreLent (S.lends shelf.old) (study_files study.now) }

    ensures prepared { WhereTold (S.content shelf.old) (study_files study.now) (λ contents.
        IsDecided (IsStudied study.now contents)
        (λ p. IsRunOf study.now p (contents study.now.capture.now)) result) }
    ensures names { WhereTold (S.content shelf.old) (study_files study.now) (λ contents.
        IfOk result (λ p. HasNames (policy_file_in p.lines p.place))) }
    ensures short { IfOk result (λ p. counts_of (steps_of p.script) ≤ most_count) }
    ensures rejects { RejectsWith (study_statuses study.now) result }
    ensures kept { KeepsShelf S.lends S.content S.faults shelf.old shelf.new }
    ensures cause { StopsReading result (S.faults shelf.old) (S.faults shelf.new) }
{
    let policy_file = read_input(alloc, &PolicyFormat(study.latest), shelf, study.policy)?;
    let place = prepare_place(alloc, policy_file.policy, study, shelf)?;
    let script = prepare_script(alloc, study.drive, shelf)?;
    Ok(Prepared {
        lines: policy_file.lines,
        place,
        script,
    })
}
