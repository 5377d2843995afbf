//! The calls that run the replayer.
ghost use Rattle.std.specs.Prelude.{◌≡◌, ◌<◌, ◌^◌};
ghost use Rattle.outside_core.specs.Faults.{Rose};
ghost use Rattle.tap_core.specs.Lists.{entries};
ghost use Rattle.replay_app.specs.Answer.{IsGiven};
ghost use Rattle.replay_app.specs.Output.{Answers};
ghost use Rattle.replay_app.specs.Statuses.{CanEnd};
ghost use Rattle.replay_app.specs.Words.{AreLent, WhereTold, file_words};
ghost use Rattle.block_replay.specs.Output.{IsBlockOutput};
ghost use Rattle.block_replay.specs.Words.{block_file_words, CanBlockEnd};
ghost use Rattle.front_core.specs.Catching.{told, kept_of, below_of};
ghost use Rattle.study.specs.Files.{study_files, HasLinkRate, CanStudyEnd};
ghost use Rattle.study.specs.Studied.{IsAnswered};
ghost use Rattle.zovatsemo.specs.Front.{form_asked, block_form_asked, words_asked, run_asked, asked, asked_files, AnswersAsked, CanEndAsked};

use crate::asked::{LATEST, study_asked, upgrade_asked};
use block_core::BlockFabric;
use block_replay::block_run_to;
use fabric_core::{Fabric, FlatFabric};
use front_core::Catching;
use front_defs::{Options, words_of};
use front_upgrade::upgrade;
use outside_core::{Shelf, Sink};
use replay_app::run_to;
use std::alloc::Global;
use study::{Study, study};
use tap_core::Tap;

/// Exit status: out of memory before the run.
const NO_MEMORY: u8 = 10;

/// Runs the replayer's `run_to` with the arguments that the options give, and does nothing else.
fn run_queues<S: Shelf, K: Sink, F: Fabric>(
    alloc: Global,
    options: &Options<'_>,
    shelf: &mut S,
    sink: &mut K,
    fabric: &mut F,
    taps: &mut Vec<Box<dyn Tap>>,
) -> u8
    requires lent { AreLent (S.lends shelf.old) (file_words (form_asked options.now)) }
    requires pushes { F.pushed fabric.old < 2 ^ 61 }
    requires pops { F.popped fabric.old < 2 ^ 61 }

    ensures answer { WhereTold (S.content shelf.old) (file_words (form_asked options.now))
        (λ contents.
        Answers (form_asked options.now) contents (entries kind_of state_of taps.old.items) result
        (K.written sink.old) (K.written sink.new)) }
    ensures statuses { CanEnd (form_asked options.now) result }
    ensures shelf_cause { result ≡ 8 → Rose (S.faults shelf.old) (S.faults shelf.new) }
    ensures sink_cause { result ≡ 9 → Rose (K.faults sink.old) (K.faults sink.new) }
{
    match words_of(alloc, options) {
        Ok(words) => run_to(alloc, LATEST, &words, shelf, sink, fabric, taps),
        Err(_) => NO_MEMORY,
    }
}

/// Runs `block_run_to` with the arguments that the options give, and does nothing else.
fn run_blocks<S: Shelf, K: Sink>(
    alloc: Global,
    options: &Options<'_>,
    shelf: &mut S,
    sink: &mut K,
    fabric: &mut BlockFabric,
    taps: &mut Vec<Box<dyn Tap>>,
) -> u8
    requires lent { AreLent (S.lends shelf.old) (block_file_words (block_form_asked options.now)) }
    requires pushes { fabric.old.pushed < 2 ^ 61 }
    requires pops { fabric.old.popped < 2 ^ 61 }

    ensures answer { WhereTold (S.content shelf.old) (block_file_words
        (block_form_asked options.now)) (λ contents.
        IsGiven (IsBlockOutput (block_form_asked options.now) contents (entries kind_of state_of taps.old.items)) result
        (K.written sink.old) (K.written sink.new)) }
    ensures statuses { CanBlockEnd (block_form_asked options.now) result }
    ensures shelf_cause { result ≡ 8 → Rose (S.faults shelf.old) (S.faults shelf.new) }
    ensures sink_cause { result ≡ 9 → Rose (K.faults sink.old) (K.faults sink.new) }
{
    match words_of(alloc, options) {
        Ok(words) => block_run_to(alloc, LATEST, &words, shelf, sink, fabric, taps),
        Err(_) => NO_MEMORY,
    }
}

/// Runs a study, on rank stores if `block` and the study has a target.
fn run_study<S: Shelf, K: Sink>(
    alloc: Global,
    block: bool,
    wanted: &Study<'_>,
    shelf: &mut S,
    sink: &mut K,
) -> u8
    requires lent { AreLent (S.lends shelf.old) (study_files wanted.now) }
    requires rate { HasLinkRate wanted.now.drive }

    ensures answer { WhereTold (S.content shelf.old) (study_files wanted.now) (λ contents.
        IsAnswered wanted.now contents result (K.written sink.old) (K.written sink.new)) }
    ensures statuses { CanStudyEnd wanted.now result }
    ensures shelf_cause { result ≡ 8 → Rose (S.faults shelf.old) (S.faults shelf.new) }
    ensures sink_cause { result ≡ 9 → Rose (K.faults sink.old) (K.faults sink.new) }
{
    if block {
        match BlockFabric::new(alloc) {
            Ok(mut fabric) => study(alloc, wanted, shelf, sink, &mut fabric),
            Err(_) => NO_MEMORY,
        }
    } else {
        match FlatFabric::new(alloc) {
            Ok(mut fabric) => study(alloc, wanted, shelf, sink, &mut fabric),
            Err(_) => NO_MEMORY,
        }
    }
}

/// Runs the replayer with the arguments that the options give, on rank stores if they say so.
fn run_words<S: Shelf, K: Sink>(
    alloc: Global,
    options: &Options<'_>,
    shelf: &mut S,
    sink: &mut K,
    taps: &mut Vec<Box<dyn Tap>>,
) -> u8
    requires lent { AreLent (S.lends shelf.old) (asked_files (words_asked options.now)) }

    ensures answer { WhereTold (S.content shelf.old) (asked_files (words_asked options.now))
        (λ contents.
        AnswersAsked (words_asked options.now) contents (entries kind_of state_of taps.old.items) result
        (K.written sink.old) (K.written sink.new)) }
    ensures statuses { CanEndAsked (words_asked options.now) result }
    ensures shelf_cause { result ≡ 8 → Rose (S.faults shelf.old) (S.faults shelf.new) }
    ensures sink_cause { result ≡ 9 → Rose (K.faults sink.old) (K.faults sink.new) }
{
    if options.block {
        match BlockFabric::new(alloc) {
            Ok(mut fabric) => run_blocks(alloc, options, shelf, sink, &mut fabric, taps),
            Err(_) => NO_MEMORY,
        }
    } else {
        match FlatFabric::new(alloc) {
            Ok(mut fabric) => run_queues(alloc, options, shelf, sink, &mut fabric, taps),
            Err(_) => NO_MEMORY,
        }
    }
}

/// Runs what the options ask for besides an upgrade: a study, or the replayer with the arguments
/// that they give.
fn run_asked<S: Shelf, K: Sink>(
    alloc: Global,
    options: &Options<'_>,
    shelf: &mut S,
    sink: &mut K,
    taps: &mut Vec<Box<dyn Tap>>,
) -> u8
    requires lent { AreLent (S.lends shelf.old) (asked_files (run_asked options.now)) }

    ensures answer { WhereTold (S.content shelf.old) (asked_files (run_asked options.now))
        (λ contents.
        AnswersAsked (run_asked options.now) contents (entries kind_of state_of taps.old.items) result
        (K.written sink.old) (K.written sink.new)) }
    ensures statuses { CanEndAsked (run_asked options.now) result }
    ensures shelf_cause { result ≡ 8 → Rose (S.faults shelf.old) (S.faults shelf.new) }
    ensures sink_cause { result ≡ 9 → Rose (K.faults sink.old) (K.faults sink.new) }
{
    match study_asked(options) {
        Some(wanted) => run_study(alloc, options.block, &wanted, shelf, sink),
        None => run_words(alloc, options, shelf, sink, taps),
    }
}

/// Runs what the options ask for, and does nothing else: an upgrade, a study, or the replayer with the
/// arguments that they give, which is `block_run_to` with the option for rank stores and otherwise `run_to`.
/// Under `--plain`, the sink is the output itself.
pub fn front_run<S: Shelf, K: Sink>(
    alloc: Global,
    options: &Options<'_>,
    shelf: &mut S,
    sink: &mut K,
    taps: &mut Vec<Box<dyn Tap>>,
) -> u8
    requires lent { AreLent (S.lends shelf.old) (asked_files (asked options.now)) }

    ensures answer { WhereTold (S.content shelf.old) (asked_files (asked options.now)) (λ contents.
        AnswersAsked (asked options.now) contents (entries kind_of state_of taps.old.items) result
        (K.written sink.old) (K.written sink.new)) }
    ensures statuses { CanEndAsked (asked options.now) result }
    ensures shelf_cause { result ≡ 8 → Rose (S.faults shelf.old) (S.faults shelf.new) }
    ensures sink_cause { result ≡ 9 → Rose (K.faults sink.old) (K.faults sink.new) }
{
    match upgrade_asked(options) {
        Some(policy) => upgrade(alloc, policy, shelf, sink),
        None => run_asked(alloc, options, shelf, sink, taps),
    }
}

/// Does the same, but holds the `fault` line back. The output gets all that is written except the
/// bytes held back.
pub fn front_caught<S: Shelf, K: Sink + Drop>(
    alloc: Global,
    options: &Options<'_>,
    shelf: &mut S,
    sink: &mut Catching<K>,
    taps: &mut Vec<Box<dyn Tap>>,
) -> u8
    requires lent { AreLent (S.lends shelf.old) (asked_files (asked options.now)) }

    ensures answer { WhereTold (S.content shelf.old) (asked_files (asked options.now)) (λ contents.
        AnswersAsked (asked options.now) contents (entries kind_of state_of taps.old.items) result
        (told (K.written (below_of sink.old)) (kept_of sink.old))
        (told (K.written (below_of sink.new)) (kept_of sink.new))) }
    ensures statuses { CanEndAsked (asked options.now) result }
{
    front_run(alloc, options, shelf, sink, taps)
}
