//! The program's entry point.
ghost use Rattle.std.specs.Prelude.{◌≡◌, ◌≢◌, ◌<◌, ◌≤◌, ◌^◌, ◌∷◌, [], vec_len};
ghost use Rattle.outside_core.specs.Faults.{Rose};
ghost use Rattle.sched_embedded.specs.Fabrics.{IsAsItWas};
ghost use Rattle.tap_core.specs.Lists.{entries};
ghost use Rattle.replay_app.specs.Answer.{IsGiven};
ghost use Rattle.replay_app.specs.Behind.{HoldsLeft};
ghost use Rattle.replay_app.specs.Statuses.{IsOneOf, IsRefusal};
ghost use Rattle.replay_app.specs.Words.{AreLent, WhereTold, no_form};
ghost use Rattle.block_replay.specs.Behind.{AreBlockTapsLeft, UsesNoBlocks, ShowsNoTaps};
ghost use Rattle.block_replay.specs.Ends.{IsBlockEndOf, KeepsToBlocks};
ghost use Rattle.block_replay.specs.Output.{IsBlockOutput};
ghost use Rattle.block_replay.specs.Words.{block_file_words, block_form_in, block_form_up_to, CanBlockEnd, end_status, shared};

use crate::counting::run_counted;
use crate::verdict::tell_files;
use crate::words::{Task, task_of};
use block_core::BlockFabric;
use fabric_core::Fabric;
use outside_core::{Shelf, Sink, Stop};
use policy_text::Edition;
use replay_app::{NO_FORM, Status, refuse, stop_status};
use report_core::FaultKind;
use std::alloc::Global;
use tap_core::Tap;

/// Returns the exit status: that of the run, or that of the stop that ended it.
fn end_status(answer: Result<Status, Stop>) -> u8
    ensures { result ≡ end_status answer }
{
    match answer {
        Ok(status) => status.code(),
        Err(stop) => stop_status(stop),
    }
}

/// Runs the command that the arguments give, as `block_run` does, and returns the program's exit
/// status. The policy is read up to the edition `latest`.
pub fn block_run_to<S: Shelf, K: Sink>(
    alloc: Global,
    latest: Edition,
    words: &[String],
    shelf: &mut S,
    sink: &mut K,
    fabric: &mut BlockFabric,
    taps: &mut Vec<Box<dyn Tap>>,
) -> u8
    requires lent { AreLent (S.lends shelf.old) (block_file_words (block_form_up_to latest
        words.now)) }
    requires pushes { fabric.old.pushed < 2 ^ 61 }
    requires pops { fabric.old.popped < 2 ^ 61 }

    // If file contents are known to the contract: the output, the fabric and the taps.
    ensures told { WhereTold (S.content shelf.old) (block_file_words (block_form_up_to latest
        words.now)) (λ contents.
        IsBlockEndOf ⟦<BlockFabric as Fabric>⟧ (block_form_up_to latest words.now) contents result
        (K.written sink.old) (K.written sink.new) fabric.old fabric.new
        (entries kind_of state_of taps.old.items) (entries kind_of state_of taps.new.items)) }

    // For any file contents: the guarantees that follow from the arguments alone.
    ensures always { KeepsToBlocks ⟦<BlockFabric as Fabric>⟧ (block_form_up_to latest words.now)
        result fabric.old fabric.new
        (entries kind_of state_of taps.old.items) (entries kind_of state_of taps.new.items) }
    ensures fewer { vec_len taps.new ≤ vec_len taps.old }
    ensures shelf_cause { result ≡ 8 → Rose (S.faults shelf.old) (S.faults shelf.new) }
    ensures no_files { block_file_words (block_form_up_to latest words.now) ≡ [] → result ≢ 8 }
    ensures sink_cause { result ≡ 9 → Rose (K.faults sink.old) (K.faults sink.new) }
{
    match task_of(latest, words) {
        Task::Shared => run_counted(alloc, latest, words, shelf, sink, fabric, taps),
        Task::Calm(files) => end_status(tell_files(alloc, &files, shelf, sink)),
        Task::NoForm => end_status(refuse(alloc, sink, FaultKind::Words, NO_FORM)),
    }
}

/// Runs the command that the arguments give, and returns the program's exit status. The policy is
/// read as a text of version 1 or 2. `words` holds the arguments after the program's name. The
/// commands are those of replay_app's `run` except `via` and `forward`, over a fabric of rank
/// stores, and `calm POLICY TARGET`.
///
/// If a run ends whole, a line with the number of its spills follows its text.
pub fn block_run<S: Shelf, K: Sink>(
    alloc: Global,
    words: &[String],
    shelf: &mut S,
    sink: &mut K,
    fabric: &mut BlockFabric,
    taps: &mut Vec<Box<dyn Tap>>,
) -> u8
    requires lent { AreLent (S.lends shelf.old) (block_file_words (block_form_in words.now)) }
    requires pushes { fabric.old.pushed < 2 ^ 61 }
    requires pops { fabric.old.popped < 2 ^ 61 }

    // If file contents are known to the contract: the output is written whole with its status, or a
    // prefix of it with status 8, 9 or 10. The fabric is unchanged, or holds the result of the run
    // or of a prefix of it. The taps are those that the run leaves.
    ensures answer { WhereTold (S.content shelf.old) (block_file_words (block_form_in words.now))
        (λ contents.
        IsGiven (IsBlockOutput (block_form_in words.now) contents (entries kind_of state_of taps.old.items)) result
        (K.written sink.old) (K.written sink.new)) }
    ensures fabric { WhereTold (S.content shelf.old) (block_file_words (block_form_in words.now))
        (λ contents.
        HoldsLeft ⟦<BlockFabric as Fabric>⟧
        (IsBlockOutput (block_form_in words.now) contents (entries kind_of state_of taps.old.items)) result
        fabric.old fabric.new) }
    ensures taps { WhereTold (S.content shelf.old) (block_file_words (block_form_in words.now))
        (λ contents.
        AreBlockTapsLeft (block_form_in words.now) contents result
        (entries kind_of state_of taps.old.items) (entries kind_of state_of taps.new.items)) }

    // For any file contents: the guarantees that follow from the arguments alone.
    ensures statuses { CanBlockEnd (block_form_in words.now) result }
    ensures no_form { result ≡ 2 → block_form_in words.now ≡ shared no_form }
    ensures told_so { block_form_in words.now ≡ shared no_form → IsOneOf (2 ∷ 9 ∷ 10 ∷ []) result }
    ensures refused { IsRefusal result → IsAsItWas ⟦<BlockFabric as Fabric>⟧ fabric.old fabric.new }
    ensures untouched { UsesNoBlocks (block_form_in words.now) →
        IsAsItWas ⟦<BlockFabric as Fabric>⟧ fabric.old fabric.new }
    ensures unwatched { IsRefusal result
        → entries kind_of state_of taps.new.items ≡ entries kind_of state_of taps.old.items }
    ensures unshown { ShowsNoTaps (block_form_in words.now)
        → entries kind_of state_of taps.new.items ≡ entries kind_of state_of taps.old.items }
    ensures fewer { vec_len taps.new ≤ vec_len taps.old }
    ensures shelf_cause { result ≡ 8 → Rose (S.faults shelf.old) (S.faults shelf.new) }
    ensures no_files { block_file_words (block_form_in words.now) ≡ [] → result ≢ 8 }
    ensures sink_cause { result ≡ 9 → Rose (K.faults sink.old) (K.faults sink.new) }
{
    block_run_to(alloc, Edition::Classic, words, shelf, sink, fabric, taps)
}
