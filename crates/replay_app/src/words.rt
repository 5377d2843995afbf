//! The arguments of the commands.
ghost use Rattle.std.specs.Prelude.{◌≡◌, ◌≤◌, IfSome, IsFalse, IsTrue, MatchOption, option_map};
ghost use Rattle.sched_defs.specs.SendTime.{IsByteRate};
ghost use Rattle.sched_run.specs.Drawings.{most_load};
ghost use Rattle.replay_app.specs.Behind.{UsesNoFabric};
ghost use Rattle.replay_app.specs.Words.{form_up_to, rate_of, number_within, load_of, three_words, named_in, last_rate, pacing_by, via_by, form_of, no_form, texts};
ghost use Rattle.replay_app.specs.Named.{pacing_form, via_form, command_form, HasRate, CanRun};

use events_core::MOST_RATE;
use policy_text::Edition;
use rank_defs::MAX_RANK;
use sched_capture::LoadSize;
use sched_run::MOST_LOAD;
use tap_core::Named;
use text_core::decimal;

/// What paces a run through the fabric: a script or a link.
#[derive(Clone, Copy, Debug)]
pub enum Pacing<'a> {
    /// A script of this name, and the kinds of taps that watch.
    Script(&'a str, Named),
    /// A link at this rate in bytes per second.
    Link(u64),
    /// A link at this rate in bytes per second, whose departures are written as a capture.
    Forward(u64),
}

/// The file names of a run through the fabric.
#[derive(Clone, Copy, Debug)]
pub struct ReplayFiles<'a> {
    /// The policy is read up to this edition.
    pub latest: Edition,
    pub policy: &'a str,
    pub target: &'a str,
    pub capture: &'a str,
    pub pacing: Pacing<'a>,
}

/// The file names of a run through a policy's own tree.
#[derive(Clone, Copy, Debug)]
pub struct DirectFiles<'a> {
    /// The policy is read up to this edition.
    pub latest: Edition,
    pub policy: &'a str,
    pub capture: &'a str,
    pub script: &'a str,
}

/// The file names of a plan.
#[derive(Clone, Copy, Debug)]
pub struct PlanFiles<'a> {
    /// The policy is read up to this edition.
    pub latest: Edition,
    pub policy: &'a str,
    pub target: &'a str,
}

/// The file names of a run along a given map.
#[derive(Clone, Copy, Debug)]
pub struct ViaFiles<'a> {
    /// The policy is read up to this edition.
    pub latest: Edition,
    pub policy: &'a str,
    pub topology: &'a str,
    pub map: &'a str,
    pub target: &'a str,
    pub capture: &'a str,
    pub script: &'a str,
}

/// The command that the arguments give.
#[derive(Clone, Copy, Debug)]
pub enum Command<'a> {
    /// Runs these files through the fabric, paced by a script or by a link.
    Replay(ReplayFiles<'a>),
    /// Prints the canonical text of a policy file, which is read up to this edition.
    Check(Edition, &'a str),
    /// Prints where a target holds a policy's tree.
    Plan(PlanFiles<'a>),
    /// Runs these files through the policy's own tree.
    Direct(DirectFiles<'a>),
    /// Runs a generated load through the fabric.
    Soak(LoadSize),
    /// Runs these files through the fabric, along a given map into a topology.
    Via(ViaFiles<'a>),
}

/// Parses a rate in bytes per second, between 1 and `MOST_RATE`.
fn rate_of(word: &str) -> Option<u64>
    ensures value { result ≡ rate_of word.now }
    ensures range { IfSome result IsByteRate }
{
    let rate = decimal(word.as_bytes())?;
    (1..=MOST_RATE).contains(&rate).then_some(rate)
}

/// Parses a number of at most `most`.
fn number_within(most: u64, word: &str) -> Option<u64>
    ensures { result ≡ number_within most word.now }
{
    decimal(word.as_bytes()).filter(|number| *number <= most)
}

/// Parses the arguments after `soak`: a seed, and how many events are drawn.
fn load_of(seed: &str, count: &str) -> Option<LoadSize>
    ensures load { result ≡ load_of seed.now count.now }
    ensures short { IfSome result (λ load. load.count ≤ most_load) }
{
    let seed = number_within(MAX_RANK, seed)?;
    let count = number_within(MOST_LOAD, count)?;
    Some(LoadSize { seed, count })
}

/// Parses a command line of three arguments.
fn three_words<'a>(
    latest: Edition,
    command: &str,
    second: &'a str,
    third: &'a str,
) -> Option<Command<'a>>
    ensures range { IfSome result CanRun }
    ensures form { MatchOption result (three_words latest command.now second.now third.now ≡
        no_form) (λ c.
        three_words latest command.now second.now third.now ≡ command_form c) }
{
    match command {
        "plan" => Some(Command::Plan(PlanFiles {
            latest,
            policy: second,
            target: third,
        })),
        "soak" => Some(Command::Soak(load_of(second, third)?)),
        _ => None,
    }
}

/// Adds the kinds of taps that the arguments name in pairs to those in `named`. Each kind may be
/// named only once.
fn named_in(named: Named, words: &[String]) -> Option<Named>
    ensures { result ≡ named_in named (texts words.now) }
{
    match words {
        [] => Some(named),
        [word, name, more @ ..] if word.as_str() == "tap" => {
            named_in(named.with(name.as_str())?, more)
        }
        _ => None,
    }
}

/// Parses a rate that must be the last argument.
fn last_rate(rate: &str, more: &[String]) -> Option<u64>
    ensures value { result ≡ last_rate rate.now (texts more.now) }
    ensures range { IfSome result IsByteRate }
{
    if !more.is_empty() {
        return None;
    }
    rate_of(rate)
}

/// Returns what paces a run through the fabric, from the first argument, the fifth, and those after
/// it.
fn pacing_of<'a>(command: &str, fifth: &'a str, more: &[String]) -> Option<Pacing<'a>>
    ensures pacing { option_map pacing_form result ≡ pacing_by command.now fifth.now
        (texts more.now) }
    ensures range { IfSome result HasRate }
{
    match command {
        "replay" => Some(Pacing::Script(fifth, named_in(Named::none(), more)?)),
        "link" => Some(Pacing::Link(last_rate(fifth, more)?)),
        "forward" => Some(Pacing::Forward(last_rate(fifth, more)?)),
        _ => None,
    }
}

/// Returns the files of a run along a given map, if exactly a capture and a script follow these
/// four names.
fn via_by<'a>(
    latest: Edition,
    policy: &'a str,
    topology: &'a str,
    map: &'a str,
    target: &'a str,
    more: &'a [String],
) -> Option<ViaFiles<'a>>
    ensures { MatchOption result (via_by latest policy.now topology.now map.now target.now
        (texts more.now) ≡ no_form) (λ files.
        via_by latest policy.now topology.now map.now target.now (texts more.now) ≡ via_form files) }
{
    match more {
        [capture, script] => Some(ViaFiles {
            latest,
            policy,
            topology,
            map,
            target,
            capture: capture.as_str(),
            script: script.as_str(),
        }),
        _ => None,
    }
}

/// Parses the arguments of a command whose policy is read up to the edition `latest`. Returns none
/// if they are malformed.
pub fn command_of(latest: Edition, words: &[String]) -> Option<Command<'_>>
    ensures range { IfSome result CanRun }
    ensures form { MatchOption result (form_of latest (texts words.now) ≡ no_form) (λ c.
        form_of latest (texts words.now) ≡ command_form c) }
{
    match words {
        [command, policy] => {
            (command.as_str() == "check").then_some(Command::Check(latest, policy.as_str()))
        }
        [command, second, third] => {
            three_words(latest, command.as_str(), second.as_str(), third.as_str())
        }
        [command, policy, capture, script] => {
            (command.as_str() == "direct").then_some(Command::Direct(DirectFiles {
                latest,
                policy: policy.as_str(),
                capture: capture.as_str(),
                script: script.as_str(),
            }))
        }
        [command, policy, topology, map, target, more @ ..] if command.as_str() == "via" => {
            let files = via_by(
                latest,
                policy.as_str(),
                topology.as_str(),
                map.as_str(),
                target.as_str(),
                more,
            )?;
            Some(Command::Via(files))
        }
        [command, policy, target, capture, fifth, more @ ..] => {
            let pacing = pacing_of(command.as_str(), fifth.as_str(), more)?;
            Some(Command::Replay(ReplayFiles {
                latest,
                policy: policy.as_str(),
                target: target.as_str(),
                capture: capture.as_str(),
                pacing,
            }))
        }
        _ => None,
    }
}

/// Returns whether the arguments give a command that runs packets through the fabric.
pub fn uses_fabric(latest: Edition, words: &[String]) -> bool
    ensures used { IsTrue result → UsesNoFabric (form_up_to latest words.now) → ⊥ }
    ensures unused { IsFalse result → UsesNoFabric (form_up_to latest words.now) }
{
    matches!(
        command_of(latest, words),
        Some(Command::Replay(_) | Command::Soak(_) | Command::Via(_))
    )
}
