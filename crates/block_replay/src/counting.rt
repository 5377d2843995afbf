//! The commands that both programs share, with the spills of a run after its text.
ghost use Rattle.std.specs.Prelude.{◌≡◌, ◌≢◌, ◌≤◌, ◌<◌, ◌^◌, ◌++◌, ◌⊎◌, [], vec_len, OnOk, OnErr, IsErrOf, IsFalse, IsTrue};
ghost use Rattle.outside_core.specs.Faults.{Rose};
ghost use Rattle.outside_core.specs.Written.{Appended, AppendedPrefix};
ghost use Rattle.tap_core.specs.Lists.{entries};
ghost use Rattle.replay_app.specs.Behind.{UsesNoFabric};
ghost use Rattle.replay_app.specs.Words.{AreLent, WhereTold, file_words, form_up_to};
ghost use Rattle.block_replay.specs.Ends.{IsBlockEndOf, KeepsToBlocks};
ghost use Rattle.block_replay.specs.Spills.{spills_line};
ghost use Rattle.block_replay.specs.Words.{shared};

use block_core::BlockFabric;
use fabric_core::Fabric;
use outside_core::{Shelf, Sink, Stop};
use policy_text::Edition;
use replay_app::{run_to, stop_status, uses_fabric, write};
use std::alloc::{AllocError, Global};
use tap_core::Tap;
use text_core::put_decimal;

/// Appends the line with a number of spills. Fails if out of memory.
fn put_line(into: &mut Vec<u8>, spills: u128) -> Result<(), AllocError>
    ensures { OnOk result (into.new.items ≡ into.old.items ++ spills_line spills) }
{
    into.extend_from_slice(b"spills ")?;
    put_decimal(into, spills)?;
    into.extend_from_slice(b"\n")
}

/// Writes the line with a number of spills.
fn write_spills<K: Sink>(alloc: Global, spills: u128, sink: &mut K) -> Result<(), Stop>
    ensures text { OnOk result (Appended (K.written sink.old) (K.written sink.new)
        (spills_line spills)) }
    ensures part { OnErr result (AppendedPrefix (K.written sink.old) (K.written sink.new)
        (spills_line spills)) }
    ensures sink_cause { IsErrOf result Stop.Sink → Rose (K.faults sink.old) (K.faults sink.new) }
    ensures sink_later { K.faults sink.old ≤ K.faults sink.new }
    ensures reads_nothing { IsErrOf result Stop.Source → ⊥ }
{
    let mut line = Vec::new(alloc);
    put_line(&mut line, spills)?;
    write(alloc, &line, sink)
}

/// Returns whether a run through the fabric ended whole, from the status and the arguments.
fn ended_whole(status: u8, latest: Edition, words: &[String]) -> bool
    ensures told { IsTrue result → (status ≡ 0) × (UsesNoFabric (form_up_to latest words.now) → ⊥) }
    ensures untold { IsFalse result → (status ≢ 0) ⊎ UsesNoFabric (form_up_to latest words.now) }
{
    status == 0 && uses_fabric(latest, words)
}

/// Runs a command as the program over plain queues does, and appends the number of spills if the
/// run ended whole. Without knowledge of the file contents, the contract doesn't say that the
/// number of spills rises.
pub fn run_counted<S: Shelf, K: Sink>(
    alloc: Global,
    latest: Edition,
    words: &[String],
    shelf: &mut S,
    sink: &mut K,
    fabric: &mut BlockFabric,
    taps: &mut Vec<Box<dyn Tap>>,
) -> u8
    requires lent { AreLent (S.lends shelf.old) (file_words (form_up_to latest words.now)) }
    requires pushes { fabric.old.pushed < 2 ^ 61 }
    requires pops { fabric.old.popped < 2 ^ 61 }

    ensures told { WhereTold (S.content shelf.old) (file_words (form_up_to latest words.now))
        (λ contents.
        IsBlockEndOf ⟦<BlockFabric as Fabric>⟧ (shared (form_up_to latest words.now)) contents result
        (K.written sink.old) (K.written sink.new) fabric.old fabric.new
        (entries kind_of state_of taps.old.items) (entries kind_of state_of taps.new.items)) }
    ensures always { KeepsToBlocks ⟦<BlockFabric as Fabric>⟧ (shared (form_up_to latest words.now))
        result fabric.old fabric.new
        (entries kind_of state_of taps.old.items) (entries kind_of state_of taps.new.items) }
    ensures fewer { vec_len taps.new ≤ vec_len taps.old }
    ensures shelf_cause { result ≡ 8 → Rose (S.faults shelf.old) (S.faults shelf.new) }
    ensures no_files { file_words (form_up_to latest words.now) ≡ [] → result ≢ 8 }
    ensures sink_cause { result ≡ 9 → Rose (K.faults sink.old) (K.faults sink.new) }
{
    let before = fabric.spills();
    let status = run_to(alloc, latest, words, shelf, sink, fabric, taps);
    if !ended_whole(status, latest, words) {
        return status;
    }
    match write_spills(alloc, fabric.spills().saturating_sub(before), sink) {
        Ok(()) => status,
        Err(stop) => stop_status(stop),
    }
}
