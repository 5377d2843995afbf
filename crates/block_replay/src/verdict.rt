//! The command `calm`: whether a policy is calm in a target.
ghost use Rattle.std.specs.Prelude.{◌≡◌, ◌≤◌, ◌∷◌, [], IfOk, OnOk, OnErr, IsErrOf};
ghost use Rattle.outside_core.specs.Faults.{Rose};
ghost use Rattle.outside_core.specs.Written.{Appended, AppendedPrefix};
ghost use Rattle.replay_app.specs.Answer.{IsTold, text_alone};
ghost use Rattle.replay_app.specs.Decided.{IsDecided, RejectsWith, StopsReading};
ghost use Rattle.replay_app.specs.Statuses.{IsOneOf, status_code};
ghost use Rattle.replay_app.specs.Words.{AreLent, WhereTold};
ghost use Rattle.block_replay.specs.Output.{IsCalmTold, calm_line};
ghost use Rattle.replay_app.specs.Causes.{HasCauses};

use crate::calmness::calm;
use crate::words::CalmFiles;
use outside_core::{Shelf, Sink, Stop};
use replay_app::{
    NotRun, PolicyFormat, Status, TargetFormat, lay, read_input, write, write_rejection,
};
use std::alloc::Global;

/// Writes the line `calm yes` or `calm no`.
fn write_line<K: Sink>(alloc: Global, is_calm: bool, sink: &mut K) -> Result<Status, Stop>
    ensures status { IfOk result (λ s. s ≡ Status.Done) }
    ensures text { OnOk result (Appended (K.written sink.old) (K.written sink.new)
        (calm_line is_calm)) }
    ensures part { OnErr result (AppendedPrefix (K.written sink.old) (K.written sink.new)
        (calm_line is_calm)) }
    ensures sink_cause { IsErrOf result Stop.Sink → Rose (K.faults sink.old) (K.faults sink.new) }
    ensures sink_later { K.faults sink.old ≤ K.faults sink.new }
    ensures reads_nothing { IsErrOf result Stop.Source → ⊥ }
{
    let line = if is_calm { "calm yes\n" } else { "calm no\n" };
    write(alloc, line.as_bytes(), sink)?;
    Ok(Status::Done)
}

/// Reads a policy and a target, and decides whether the policy is calm there; or returns why it
/// can't be decided.
fn prepare_calm<S: Shelf>(
    alloc: Global,
    files: &CalmFiles<'_>,
    shelf: &mut S,
) -> Result<bool, NotRun>
    requires lent { AreLent (S.lends shelf.old) (files.now.policy.now ∷ files.now.target.now ∷ []) }

    ensures decided { WhereTold (S.content shelf.old)
        (files.now.policy.now ∷ files.now.target.now ∷ []) (λ contents.
        IsDecided
        (IsCalmTold files.now.latest (contents files.now.policy.now) (contents files.now.target.now))
        (λ is a. a ≡ text_alone 0 (calm_line is)) result) }
    ensures rejects { RejectsWith (3 ∷ 4 ∷ 5 ∷ []) result }
    ensures cause { StopsReading result (S.faults shelf.old) (S.faults shelf.new) }
{
    let policy_file = read_input(alloc, &PolicyFormat(files.latest), shelf, files.policy)?;
    let target = read_input(alloc, &TargetFormat, shelf, files.target)?;
    let laid = lay(alloc, policy_file.policy, target)?;
    Ok(calm(laid.policy(), laid.map()))
}

/// Writes whether a policy is calm in a target.
pub fn tell_files<S: Shelf, K: Sink>(
    alloc: Global,
    files: &CalmFiles<'_>,
    shelf: &mut S,
    sink: &mut K,
) -> Result<Status, Stop>
    requires lent { AreLent (S.lends shelf.old) (files.now.policy.now ∷ files.now.target.now ∷ []) }

    ensures answer { WhereTold (S.content shelf.old) (files.now.policy.now ∷ files.now.target.now ∷
        []) (λ contents.
        IsTold (IsCalmTold files.now.latest (contents files.now.policy.now) (contents files.now.target.now)) result
        (K.written sink.old) (K.written sink.new)) }
    ensures statuses { IfOk result (λ s. IsOneOf (3 ∷ 4 ∷ 5 ∷ 0 ∷ []) (status_code s)) }
    ensures causes { HasCauses result (S.faults shelf.old) (S.faults shelf.new) (K.faults sink.old)
        (K.faults sink.new) }
{
    match prepare_calm(alloc, files, shelf) {
        Ok(is_calm) => write_line(alloc, is_calm, sink),
        Err(NotRun::Rejected(rejection)) => write_rejection(alloc, &rejection, sink),
        Err(NotRun::Stopped(stop)) => Err(stop),
    }
}
