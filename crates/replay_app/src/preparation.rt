//! The first phase of a command: its inputs are read and accepted, or the first one that isn't
//! says why nothing runs. Only the packets of a capture are left for the run.
ghost use Rattle.std.specs.Prelude.{◌≡◌, List};
ghost use Rattle.outside_core.specs.Kept.{KeepsShelf};
ghost use Rattle.tap_core.specs.Lists.{Entry};
ghost use Rattle.replay_app.specs.Decided.{IsDecided, StopsReading};
ghost use Rattle.replay_app.specs.Jobs.{IsJobOutput, FitsForm};
ghost use Rattle.replay_app.specs.Named.{command_form, direct_form, plan_form, replay_form, via_form, CanRun, HasRate};
ghost use Rattle.replay_app.specs.Output.{IsOutput};
ghost use Rattle.replay_app.specs.Words.{AreLent, WhereTold, check, file_words};

use crate::format::read_input;
use crate::job::{Drive, Job};
use crate::laying::{lay, lay_along};
use crate::not_run::{NotRun, Rejection};
use crate::policies::PolicyFormat;
use crate::route::read_route;
use crate::scripts::ScriptFormat;
use crate::targets::{NO_ROOM, TargetFormat};
use crate::topologies::TopologyFormat;
use crate::words::{Command, DirectFiles, Pacing, PlanFiles, ReplayFiles, ViaFiles};
use embed_plan::plan;
use outside_core::Shelf;
use policy_text::{Edition, print};
use report_core::FaultKind;
use sched_defs::LinkRate;
use std::alloc::Global;

/// Prepares `check`: prints the canonical text of a policy.
fn prepare_check<'a, S: Shelf>(
    alloc: Global,
    latest: Edition,
    name: &str,
    shelf: &mut S,
) -> Result<Job<'a>, NotRun>
    requires lent { AreLent (S.lends shelf.old) (file_words (check latest name.now)) }

    ensures job { WhereTold (S.content shelf.old) (file_words (check latest name.now))
        (λ contents. (taps : List Entry) →
        IsDecided (IsOutput (check latest name.now) contents taps) (IsJobOutput contents taps) result) }
    ensures fits { FitsForm (check latest name.now) result }
    ensures kept { KeepsShelf S.lends S.content S.faults shelf.old shelf.new }
    ensures cause { StopsReading result (S.faults shelf.old) (S.faults shelf.new) }
{
    let policy_file = read_input(alloc, &PolicyFormat(latest), shelf, name)?;
    let text = print(alloc, &policy_file.lines)?;
    Ok(Job::Write(text.into_vec()))
}

/// Prepares `plan`: says where a target holds a policy's tree.
fn prepare_plan<'a, S: Shelf>(
    alloc: Global,
    files: &PlanFiles<'a>,
    shelf: &mut S,
) -> Result<Job<'a>, NotRun>
    requires lent { AreLent (S.lends shelf.old) (file_words (plan_form files.now)) }

    ensures job { WhereTold (S.content shelf.old) (file_words (plan_form files.now))
        (λ contents. (taps : List Entry) →
        IsDecided (IsOutput (plan_form files.now) contents taps) (IsJobOutput contents taps) result) }
    ensures fits { FitsForm (plan_form files.now) result }
    ensures kept { KeepsShelf S.lends S.content S.faults shelf.old shelf.new }
    ensures cause { StopsReading result (S.faults shelf.old) (S.faults shelf.new) }
{
    let policy_file = read_input(alloc, &PolicyFormat(files.latest), shelf, files.policy)?;
    let target = read_input(alloc, &TargetFormat, shelf, files.target)?;
    let plan = plan(alloc, &policy_file.policy, &target)?;
    if plan.fits {
        return Ok(Job::Write(plan.text));
    }
    Err(NotRun::Rejected(Rejection {
        kind: FaultKind::Size,
        cause: NO_ROOM,
        before: Some(plan.text),
    }))
}

/// Prepares `direct`: a script through a policy's own tree of queues.
fn prepare_direct<'a, S: Shelf>(
    alloc: Global,
    files: &DirectFiles<'a>,
    shelf: &mut S,
) -> Result<Job<'a>, NotRun>
    requires lent { AreLent (S.lends shelf.old) (file_words (direct_form files.now)) }

    ensures job { WhereTold (S.content shelf.old) (file_words (direct_form files.now))
        (λ contents. (taps : List Entry) →
        IsDecided (IsOutput (direct_form files.now) contents taps) (IsJobOutput contents taps) result) }
    ensures fits { FitsForm (direct_form files.now) result }
    ensures kept { KeepsShelf S.lends S.content S.faults shelf.old shelf.new }
    ensures cause { StopsReading result (S.faults shelf.old) (S.faults shelf.new) }
{
    let policy_file = read_input(alloc, &PolicyFormat(files.latest), shelf, files.policy)?;
    let script = read_input(alloc, &ScriptFormat, shelf, files.script)?;
    Ok(Job::Own(policy_file.policy, script, files.capture))
}

/// Prepares `replay`, `link` and `forward`: a run through the fabric, into which a policy is laid.
fn prepare_replay<'a, S: Shelf>(
    alloc: Global,
    files: &ReplayFiles<'a>,
    shelf: &mut S,
) -> Result<Job<'a>, NotRun>
    requires lent { AreLent (S.lends shelf.old) (file_words (replay_form files.now)) }
    requires rate { HasRate files.now.pacing }

    ensures job { WhereTold (S.content shelf.old) (file_words (replay_form files.now))
        (λ contents. (taps : List Entry) →
        IsDecided (IsOutput (replay_form files.now) contents taps) (IsJobOutput contents taps) result) }
    ensures fits { FitsForm (replay_form files.now) result }
    ensures kept { KeepsShelf S.lends S.content S.faults shelf.old shelf.new }
    ensures cause { StopsReading result (S.faults shelf.old) (S.faults shelf.new) }
{
    let policy_file = read_input(alloc, &PolicyFormat(files.latest), shelf, files.policy)?;
    let target = read_input(alloc, &TargetFormat, shelf, files.target)?;
    let laid = lay(alloc, policy_file.policy, target)?;
    let capture = files.capture;
    match files.pacing {
        Pacing::Script(name, named) => {
            let script = read_input(alloc, &ScriptFormat, shelf, name)?;
            Ok(Job::Watched(laid, script, named, capture))
        }
        Pacing::Link(rate) => Ok(Job::Alone(laid, Drive::Link(LinkRate::plain(rate)), capture)),
        Pacing::Forward(rate) => {
            Ok(Job::Alone(laid, Drive::Forward(LinkRate::plain(rate)), capture))
        }
    }
}

/// Prepares `via`: a run through the fabric, into which a policy is laid along a given map.
fn prepare_via<'a, S: Shelf>(
    alloc: Global,
    files: &ViaFiles<'a>,
    shelf: &mut S,
) -> Result<Job<'a>, NotRun>
    requires lent { AreLent (S.lends shelf.old) (file_words (via_form files.now)) }

    ensures job { WhereTold (S.content shelf.old) (file_words (via_form files.now))
        (λ contents. (taps : List Entry) →
        IsDecided (IsOutput (via_form files.now) contents taps) (IsJobOutput contents taps) result) }
    ensures fits { FitsForm (via_form files.now) result }
    ensures kept { KeepsShelf S.lends S.content S.faults shelf.old shelf.new }
    ensures cause { StopsReading result (S.faults shelf.old) (S.faults shelf.new) }
{
    let policy_file = read_input(alloc, &PolicyFormat(files.latest), shelf, files.policy)?;
    let middle = read_input(alloc, &TopologyFormat, shelf, files.topology)?;
    let given = read_route(alloc, &policy_file.policy, &middle, shelf, files.map)?;
    let target = read_input(alloc, &TargetFormat, shelf, files.target)?;
    let laid = lay_along(alloc, policy_file.policy, &middle, &given, target)?;
    let script = read_input(alloc, &ScriptFormat, shelf, files.script)?;
    Ok(Job::Alone(laid, Drive::Script(script), files.capture))
}

/// Reads the inputs of a command in the order in which they can be rejected, up to the capture.
/// Returns what then runs, or why nothing does: the first input that is rejected, or an error of a
/// file or of memory.
pub fn prepare<'a, S: Shelf>(
    alloc: Global,
    command: &Command<'a>,
    shelf: &mut S,
) -> Result<Job<'a>, NotRun>
    requires lent { AreLent (S.lends shelf.old) (file_words (command_form command.now)) }
    requires can { CanRun command.now }

    ensures job { WhereTold (S.content shelf.old) (file_words (command_form command.now))
        (λ contents. (taps : List Entry) →
        IsDecided (IsOutput (command_form command.now) contents taps) (IsJobOutput contents taps) result) }
    ensures fits { FitsForm (command_form command.now) result }
    ensures kept { KeepsShelf S.lends S.content S.faults shelf.old shelf.new }
    ensures cause { StopsReading result (S.faults shelf.old) (S.faults shelf.new) }
{
    match command {
        Command::Replay(files) => prepare_replay(alloc, files, shelf),
        Command::Check(latest, policy) => prepare_check(alloc, *latest, policy, shelf),
        Command::Plan(files) => prepare_plan(alloc, files, shelf),
        Command::Direct(files) => prepare_direct(alloc, files, shelf),
        Command::Soak(load) => Ok(Job::Load(*load)),
        Command::Via(files) => prepare_via(alloc, files, shelf),
    }
}
