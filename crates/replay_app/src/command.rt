//! The program's entry point.
ghost use Rattle.std.specs.Prelude.{◌≡◌, ◌≢◌, ◌<◌, ◌≤◌, ◌^◌, ◌∷◌, [], vec_len, IfOk, IsErrOf};
ghost use Rattle.outside_core.specs.Faults.{Rose};
ghost use Rattle.sched_embedded.specs.Fabrics.{IsAsItWas};
ghost use Rattle.replay_app.specs.Answer.{IsTold};
ghost use Rattle.replay_app.specs.Behind.{IsLeftBehind, IsLeftOf, AreTapsLeft, UsesNoFabric, UsesNoTaps};
ghost use Rattle.tap_core.specs.Lists.{entries};
ghost use Rattle.replay_app.specs.Output.{Answers, IsOutput};
ghost use Rattle.replay_app.specs.Statuses.{CanEnd, IsOneOf, IsRefusal, statuses_of, status_code};
ghost use Rattle.replay_app.specs.Ends.{IsEndOf, KeepsTo};
ghost use Rattle.replay_app.specs.Words.{AreLent, WhereTold, file_words, form_in, form_up_to, no_form};
ghost use Rattle.sched_capture.specs.Placements.{CanCount};
ghost use Rattle.replay_app.specs.Causes.{HasCauses};

use crate::execution::execute;
use crate::not_run::NotRun;
use crate::preparation::prepare;
use crate::refusal::Refusal;
use crate::status::Status;
use crate::stop::stop_status;
use crate::words::command_of;
use crate::writing::{refuse, write_rejection};
use fabric_core::Fabric;
use outside_core::{Shelf, Sink, Stop};
use policy_text::Edition;
use report_core::FaultKind;
use std::alloc::Global;
use tap_core::Tap;

/// The arguments are malformed.
pub const NO_FORM: Refusal = Refusal { code: 0, place: 0 };

/// Decides what the command does, and does it. Its policy is read up to the edition `latest`.
fn answer<S: Shelf, K: Sink, F: Fabric, T: Tap>(
    alloc: Global,
    latest: Edition,
    words: &[String],
    shelf: &mut S,
    sink: &mut K,
    fabric: &mut F,
    taps: &mut Vec<T>,
) -> Result<Status, Stop>
    requires lent { AreLent (S.lends shelf.old) (file_words (form_up_to latest words.now)) }
    requires counts { CanCount F.Fabric fabric.old }

    ensures answer { WhereTold (S.content shelf.old) (file_words (form_up_to latest words.now))
        (λ contents.
        IsTold (IsOutput (form_up_to latest words.now) contents (entries T.kind_of T.state_of taps.old.items)) result
        (K.written sink.old) (K.written sink.new)) }
    ensures left { WhereTold (S.content shelf.old) (file_words (form_up_to latest words.now))
        (λ contents.
        IsLeftOf F.Fabric (form_up_to latest words.now) contents result fabric.old fabric.new
        (entries T.kind_of T.state_of taps.old.items) (entries T.kind_of T.state_of taps.new.items)) }
    ensures fewer { vec_len taps.new ≤ vec_len taps.old }
    ensures statuses { IfOk result (λ s. IsOneOf (statuses_of (form_up_to latest words.now))
        (status_code s)) }
    ensures refused { IfOk result (λ s. IsRefusal (status_code s) →
        IsAsItWas F.Fabric fabric.old fabric.new) }
    ensures untouched { UsesNoFabric (form_up_to latest words.now) → IsAsItWas F.Fabric fabric.old
        fabric.new }
    ensures unwatched { IfOk result (λ s. IsRefusal (status_code s)
        → entries T.kind_of T.state_of taps.new.items ≡ entries T.kind_of T.state_of taps.old.items) }
    ensures unshown { UsesNoTaps (form_up_to latest words.now)
        → entries T.kind_of T.state_of taps.new.items ≡ entries T.kind_of T.state_of taps.old.items }
    ensures no_files { file_words (form_up_to latest words.now) ≡ [] → IsErrOf result Stop.Source
        → ⊥ }
    ensures causes { HasCauses result (S.faults shelf.old) (S.faults shelf.new) (K.faults sink.old)
        (K.faults sink.new) }
{
    let command = match command_of(latest, words) {
        Some(command) => command,
        None => return refuse(alloc, sink, FaultKind::Words, NO_FORM),
    };
    match prepare(alloc, &command, shelf) {
        Ok(job) => execute(alloc, job, shelf, sink, fabric, taps),
        Err(NotRun::Rejected(rejection)) => write_rejection(alloc, &rejection, sink),
        Err(NotRun::Stopped(stop)) => Err(stop),
    }
}

/// Runs the command that the arguments give, as `run` does, and returns the program's exit status.
/// The policy is read up to the edition `latest`.
pub fn run_to<S: Shelf, K: Sink, F: Fabric>(
    alloc: Global,
    latest: Edition,
    words: &[String],
    shelf: &mut S,
    sink: &mut K,
    fabric: &mut F,
    taps: &mut Vec<Box<dyn Tap>>,
) -> u8
    requires lent { AreLent (S.lends shelf.old) (file_words (form_up_to latest words.now)) }
    requires pushes { F.pushed fabric.old < 2 ^ 61 }
    requires pops { F.popped fabric.old < 2 ^ 61 }

    // If file contents are known to the contract: the output, the fabric and the taps.
    ensures told { WhereTold (S.content shelf.old) (file_words (form_up_to latest words.now))
        (λ contents.
        IsEndOf F.Fabric (form_up_to latest words.now) contents result
        (K.written sink.old) (K.written sink.new) fabric.old fabric.new
        (entries kind_of state_of taps.old.items) (entries kind_of state_of taps.new.items)) }

    // For any file contents: the guarantees that follow from the arguments alone.
    ensures always { KeepsTo F.Fabric (form_up_to latest words.now) result fabric.old fabric.new
        (entries kind_of state_of taps.old.items) (entries kind_of state_of taps.new.items) }
    ensures fewer { vec_len taps.new ≤ vec_len taps.old }
    ensures shelf_cause { result ≡ 8 → Rose (S.faults shelf.old) (S.faults shelf.new) }
    ensures no_files { file_words (form_up_to latest words.now) ≡ [] → result ≢ 8 }
    ensures sink_cause { result ≡ 9 → Rose (K.faults sink.old) (K.faults sink.new) }
    ensures sink_later { K.faults sink.old ≤ K.faults sink.new }
{
    match answer(alloc, latest, words, shelf, sink, fabric, taps) {
        Ok(status) => status.code(),
        Err(stop) => stop_status(stop),
    }
}

/// Runs the command that the arguments give, and returns the program's exit status. The policy is
/// read as a text of version 1 or 2. `words` holds the arguments after the program's name, in one
/// of these forms:
///
/// - `replay POLICY TARGET CAPTURE SCRIPT`, followed by `tap NAME` for each kind of tap to watch
/// - `link POLICY TARGET CAPTURE RATE` or `forward POLICY TARGET CAPTURE RATE`, with a rate in
///   bytes per second
/// - `direct POLICY CAPTURE SCRIPT`
/// - `plan POLICY TARGET`
/// - `check POLICY`
/// - `via POLICY TOPOLOGY MAP TARGET CAPTURE SCRIPT`, with a map of the policy's tree into the
///   topology
/// - `soak SEED COUNT`, with a seed of at most 4,611,686,018,427,387,903 and a count of at most
///   1,000,000 events
///
/// When a run of `replay` begins, taps whose kind isn't named are dropped. Each remaining tap sees
/// every departure and every drop until it is done. If the run ends whole, the lines of the taps
/// follow the report, in the order of the list.
pub fn run<S: Shelf, K: Sink, F: Fabric>(
    alloc: Global,
    words: &[String],
    shelf: &mut S,
    sink: &mut K,
    fabric: &mut F,
    taps: &mut Vec<Box<dyn Tap>>,
) -> u8
    requires lent { AreLent (S.lends shelf.old) (file_words (form_in words.now)) }
    requires pushes { F.pushed fabric.old < 2 ^ 61 }
    requires pops { F.popped fabric.old < 2 ^ 61 }

    // If file contents are known to the contract: the output is written whole with its status, or a
    // prefix of it with status 8, 9 or 10. The fabric is unchanged, or holds the result of the run
    // or of a prefix of it. The taps are those that the run leaves.
    ensures answer { WhereTold (S.content shelf.old) (file_words (form_in words.now)) (λ contents.
        Answers (form_in words.now) contents (entries kind_of state_of taps.old.items) result
        (K.written sink.old) (K.written sink.new)) }
    ensures fabric { WhereTold (S.content shelf.old) (file_words (form_in words.now)) (λ contents.
        IsLeftBehind F.Fabric (form_in words.now) contents (entries kind_of state_of taps.old.items) result
        fabric.old fabric.new) }
    ensures taps { WhereTold (S.content shelf.old) (file_words (form_in words.now)) (λ contents.
        AreTapsLeft (form_in words.now) contents result
        (entries kind_of state_of taps.old.items) (entries kind_of state_of taps.new.items)) }

    // For any file contents: the guarantees that follow from the arguments alone.
    ensures statuses { CanEnd (form_in words.now) result }
    ensures no_form { result ≡ 2 → form_in words.now ≡ no_form }
    ensures told_so { form_in words.now ≡ no_form → IsOneOf (2 ∷ 9 ∷ 10 ∷ []) result }
    ensures refused { IsRefusal result → IsAsItWas F.Fabric fabric.old fabric.new }
    ensures untouched { UsesNoFabric (form_in words.now) → IsAsItWas F.Fabric fabric.old
        fabric.new }
    ensures unwatched { IsRefusal result
        → entries kind_of state_of taps.new.items ≡ entries kind_of state_of taps.old.items }
    ensures unshown { UsesNoTaps (form_in words.now)
        → entries kind_of state_of taps.new.items ≡ entries kind_of state_of taps.old.items }
    ensures fewer { vec_len taps.new ≤ vec_len taps.old }
    ensures shelf_cause { result ≡ 8 → Rose (S.faults shelf.old) (S.faults shelf.new) }
    ensures no_files { file_words (form_in words.now) ≡ [] → result ≢ 8 }
    ensures sink_cause { result ≡ 9 → Rose (K.faults sink.old) (K.faults sink.new) }
    ensures sink_later { K.faults sink.old ≤ K.faults sink.new }
{
    run_to(alloc, Edition::Classic, words, shelf, sink, fabric, taps)
}
