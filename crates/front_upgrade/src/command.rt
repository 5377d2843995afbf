//! Reads a policy and writes it as a text of version 3.
ghost use Rattle.std.specs.Prelude.{◌≡◌, ◌≤◌, [], ◌∷◌, IfOk, IfSome, IsTrue, IsErrOf};
ghost use Rattle.outside_core.specs.Faults.{Rose};
ghost use Rattle.replay_app.specs.Answer.{IsTold, IsGiven, text_alone};
ghost use Rattle.replay_app.specs.Causes.{HasCauses};
ghost use Rattle.replay_app.specs.Policies.{entries_in};
ghost use Rattle.replay_app.specs.Statuses.{CanEnd, IsOneOf, status_code};
ghost use Rattle.replay_app.specs.Words.{check};
ghost use Rattle.front_upgrade.specs.Upgraded.{latest, AreSound, upgraded_text, IsUpgraded, IsUpgradeOf};

use crate::text::{line_at, upgraded_text};
use outside_core::{Shelf, Sink, Stop};
use policy_text::{Edition, Lines};
use replay_app::{
    Format, NotRun, PolicyFormat, Refusal, Status, read_input, refuse, stop_status, write,
    write_rejection,
};
use report_core::FaultKind;
use std::alloc::Global;

/// The format of policies in all editions of the language.
const POLICIES: PolicyFormat = PolicyFormat(Edition::Third);

/// Writes accepted statements as a text of version 3.
fn write_upgraded<K: Sink>(alloc: Global, lines: &Lines, sink: &mut K) -> Result<Status, Stop>
    ensures answer { AreSound (entries_in lines.now)
        → IsTold (λ b. b ≡ text_alone 0 (upgraded_text (entries_in lines.now))) result
        (K.written sink.old) (K.written sink.new) }
    ensures status { IfOk result (λ s. s ≡ Status.Done) }
    ensures sink_cause { IsErrOf result Stop.Sink → Rose (K.faults sink.old) (K.faults sink.new) }
    ensures sink_later { K.faults sink.old ≤ K.faults sink.new }
    ensures reads_nothing { IsErrOf result Stop.Source → ⊥ }
{
    let text = upgraded_text(alloc, lines)?;
    write(alloc, &text, sink)?;
    Ok(Status::Done)
}

/// Writes accepted statements as a text of version 3, or the error of the first one that version 3
/// rejects.
fn upgrade_lines<K: Sink>(alloc: Global, lines: &Lines, sink: &mut K) -> Result<Status, Stop>
    ensures answer { AreSound (entries_in lines.now) → IsTold (IsUpgradeOf (entries_in lines.now))
        result (K.written sink.old) (K.written sink.new) }
    ensures statuses { IfOk result (λ s. IsOneOf (3 ∷ 0 ∷ []) (status_code s)) }
    ensures sink_cause { IsErrOf result Stop.Sink → Rose (K.faults sink.old) (K.faults sink.new) }
    ensures sink_later { K.faults sink.old ≤ K.faults sink.new }
    ensures reads_nothing { IsErrOf result Stop.Source → ⊥ }
{
    let text = upgraded_text(alloc, lines)?;
    match POLICIES.parse(alloc, &text)? {
        Ok(again) => write_upgraded(alloc, lines, sink),
        Err(refusal) => {
            let place = line_at(lines, refusal.place);
            refuse(
                alloc,
                sink,
                FaultKind::Policy,
                Refusal {
                    code: refusal.code,
                    place,
                },
            )
        }
    }
}

/// Reads a policy file, and writes the policy as a text of version 3, or the first error.
fn upgrade_file<S: Shelf, K: Sink>(
    alloc: Global,
    name: &str,
    shelf: &mut S,
    sink: &mut K,
) -> Result<Status, Stop>
    requires lent { IsTrue (S.lends shelf.old name.now) }

    ensures answer { IfSome (S.content shelf.old name.now) (λ text.
        IsTold (IsUpgraded text) result (K.written sink.old) (K.written sink.new)) }
    ensures statuses { IfOk result (λ s. IsOneOf (3 ∷ 0 ∷ []) (status_code s)) }
    ensures causes { HasCauses result (S.faults shelf.old) (S.faults shelf.new) (K.faults sink.old)
        (K.faults sink.new) }
{
    match read_input(alloc, &POLICIES, shelf, name) {
        Ok(policy_file) => upgrade_lines(alloc, &policy_file.lines, sink),
        Err(NotRun::Rejected(rejection)) => write_rejection(alloc, &rejection, sink),
        Err(NotRun::Stopped(stop)) => Err(stop),
    }
}

/// Reads a policy file, and writes the policy as a text of version 3, or the first error. Returns
/// the program's exit status, which has the meaning that it has for `check`.
pub fn upgrade<S: Shelf, K: Sink>(alloc: Global, name: &str, shelf: &mut S, sink: &mut K) -> u8
    requires lent { IsTrue (S.lends shelf.old name.now) }

    ensures answer { IfSome (S.content shelf.old name.now) (λ text.
        IsGiven (IsUpgraded text) result (K.written sink.old) (K.written sink.new)) }
    ensures statuses { CanEnd (check latest name.now) result }
    ensures shelf_cause { result ≡ 8 → Rose (S.faults shelf.old) (S.faults shelf.new) }
    ensures sink_cause { result ≡ 9 → Rose (K.faults sink.old) (K.faults sink.new) }
    ensures sink_later { K.faults sink.old ≤ K.faults sink.new }
{
    match upgrade_file(alloc, name, shelf, sink) {
        Ok(status) => status.code(),
        Err(stop) => stop_status(stop),
    }
}
