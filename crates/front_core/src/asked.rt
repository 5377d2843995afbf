//! The request that a command line makes.
use crate::mistake::Mistake;
use crate::scan::{Scan, tell_apart};
use front_defs::{
    Command, Options, Range, RateFault, Setting, Sizes, TAPS, View, Widths, argument_of,
    command_named, count_of, least_of, number_in, place_in_form, rate_in,
};
use std::alloc::Global;
use std::path::Path;

/// The greatest seed of a load.
const MOST_SEED: u64 = (1 << 62) - 1;

/// The greatest number of events of a load.
const MOST_COUNT: u64 = 1_000_000;

/// The request for a run.
#[derive(Drop)]
pub struct Request<'a> {
    pub options: Options<'a>,
    /// The output file, or none for standard output.
    pub output: Option<&'a str>,
    pub quiet: bool,
}

/// The request that a command line makes.
#[derive(Drop)]
pub enum Asked<'a> {
    /// The help of a command, or of all commands.
    Help(Option<Command>),
    /// The version.
    Version,
    /// A run.
    Run(Request<'a>),
}

/// Checks that an argument of a load is a whole number of at most `most`. `place` is its index among
/// the arguments.
fn see_number<'a>(place: usize, word: &'a str, most: u64) -> Result<(), Mistake<'a>> {
    let range = Range { least: 0, most };
    match number_in(word.as_bytes(), range) {
        Some(_) => Ok(()),
        None => {
            let name = argument_of(Command::Soak, place);
            Err(Mistake::NoNumber(Command::Soak, name, word, range))
        }
    }
}

/// Checks that the seed and the count of a load are in range.
fn see_load<'a>(arguments: &[&'a str]) -> Result<(), Mistake<'a>> {
    match arguments {
        [seed, count] => {
            see_number(0, seed, MOST_SEED)?;
            see_number(1, count, MOST_COUNT)
        }
        _ => Ok(()),
    }
}

/// Checks that each tap exists, and that none is named twice.
fn see_taps<'a>(taps: &[&'a str]) -> Result<(), Mistake<'a>> {
    for place in 0..taps.len() {
        let tap = taps[place];
        if !TAPS.iter().any(|name| *name == tap) {
            return Err(Mistake::UnknownTap(tap));
        }
        if taps[..place].iter().any(|name| *name == tap) {
            return Err(Mistake::TapTwice(tap));
        }
    }
    Ok(())
}

/// Moves pairs `tap NAME` from the arguments of `replay` to its taps. The pairs follow the fourth
/// argument.
fn take_pairs<'a>(scan: &mut Scan<'a>) -> Result<(), Mistake<'a>> {
    for _ in 0..scan.arguments.len() {
        let count = scan.arguments.len();
        if count < 5 || scan.arguments[4] != "tap" {
            break;
        }
        if count < 6 {
            return Err(Mistake::NoTapName);
        }
        let tap = scan.arguments.remove(5);
        let _ = scan.arguments.remove(4);
        scan.taps.push(tap)?;
    }
    Ok(())
}

/// Returns the index of the first missing argument in the command's form. If the command takes a
/// rate and the last argument given is one, the missing argument comes before it.
fn missing_place(command: Command, arguments: &[&str]) -> usize {
    let place = match arguments {
        [.., word] if command.has_link() && rate_in(word.as_bytes()).is_ok() => {
            arguments.len() - 1
        }
        _ => arguments.len(),
    };
    place_in_form(command, arguments.len(), place)
}

/// Checks that a command has the right number of arguments, and that none is empty. `has_rate` says
/// whether there is the option `--rate`.
fn see_arguments<'a>(
    command: Command,
    has_rate: bool,
    arguments: &[&'a str],
) -> Result<(), Mistake<'a>> {
    if let Some(place) = arguments.iter().position(|word| word.is_empty()) {
        let place = place_in_form(command, arguments.len(), place);
        return Err(Mistake::Empty(command, place));
    }
    if arguments.len() < least_of(command, has_rate) {
        return Err(Mistake::Missing(command, missing_place(command, arguments)));
    }
    match arguments.get(count_of(command, has_rate)) {
        Some(word) if has_rate && arguments.len() == 4 => Err(Mistake::ScriptAndRate(word)),
        Some(word) => Err(Mistake::Unexpected(command, word)),
        None => Ok(()),
    }
}

/// Checks that the output isn't one of the input files. Only the paths are compared.
fn see_output<'a>(arguments: &[&'a str], output: Option<&'a str>) -> Result<(), Mistake<'a>> {
    let Some(output) = output else {
        return Ok(());
    };
    let path = Path::new(output);
    if arguments.iter().any(|name| Path::new(name) == path) {
        return Err(Mistake::OverInput(output));
    }
    Ok(())
}

/// Returns whether a rate consists of digits alone, as scripts write it.
fn is_plain_rate(word: &str) -> bool {
    word.as_bytes().iter().all(|byte| byte.is_ascii_digit())
}

/// Parses a rate. Under `--plain` it has no unit.
fn rate_of<'a>(command: Command, plain: bool, word: &'a str) -> Result<u64, Mistake<'a>> {
    if plain && !is_plain_rate(word) {
        return Err(Mistake::NoRate(command, word, RateFault::NoUnit));
    }
    match rate_in(word.as_bytes()) {
        Ok(rate) => Ok(rate),
        Err(fault) => Err(Mistake::NoRate(command, word, fault)),
    }
}

/// Removes the rate of a link, which is the last argument, and parses it, or parses the option's
/// value.
fn take_rate<'a>(command: Command, scan: &mut Scan<'a>) -> Result<Option<u64>, Mistake<'a>> {
    let word = if command.has_link() {
        let Some(word) = scan.arguments.pop() else {
            return Err(Mistake::Missing(command, 3));
        };
        Some(word)
    } else {
        scan.word_of(Setting::Rate)
    };
    match word {
        Some(word) => Ok(Some(rate_of(command, scan.plain, word)?)),
        None => Ok(None),
    }
}

/// Parses the number of an option, if it is given.
fn number_of<'a>(
    command: Command,
    scan: &Scan<'a>,
    setting: Setting,
) -> Result<Option<u64>, Mistake<'a>> {
    let Some(word) = scan.word_of(setting) else {
        return Ok(None);
    };
    let range = setting.range();
    match number_in(word.as_bytes(), range) {
        Some(number) => Ok(Some(number)),
        None => Err(Mistake::NoNumber(command, setting.name(), word, range)),
    }
}

/// Parses the number of an option whose range ends below 2^32, if it is given.
fn small_number_of<'a>(
    command: Command,
    scan: &Scan<'a>,
    setting: Setting,
) -> Result<Option<u32>, Mistake<'a>> {
    match number_of(command, scan, setting)? {
        Some(number) => Ok(u32::try_from(number).ok()),
        None => Ok(None),
    }
}

/// Returns both widths, if both are given.
fn widths_of(rank: Option<u32>, entry: Option<u32>) -> Option<Widths> {
    Some(Widths {
        rank: rank?,
        entry: entry?,
    })
}

/// Parses the limits and widths of `size`.
fn sizes_of<'a>(command: Command, scan: &Scan<'a>) -> Result<Sizes, Mistake<'a>> {
    let rank = small_number_of(command, scan, Setting::RankBits)?;
    let entry = small_number_of(command, scan, Setting::EntryBits)?;
    let entries = number_of(command, scan, Setting::LimitEntries)?;
    let bits = small_number_of(command, scan, Setting::LimitRankBits)?;
    Ok(Sizes {
        entries,
        bits,
        widths: widths_of(rank, entry),
    })
}

/// Checks that an option is given only with another one.
fn see_pair<'a>(
    command: Command,
    scan: &Scan<'a>,
    setting: Setting,
    other: Setting,
) -> Result<(), Mistake<'a>> {
    if scan.word_of(setting).is_some() && scan.word_of(other).is_none() {
        return Err(Mistake::SettingAlone(command, setting, other));
    }
    Ok(())
}

/// Checks that the command has the options for numbers that are given, and that none is missing.
fn see_settings<'a>(command: Command, scan: &Scan<'a>) -> Result<(), Mistake<'a>> {
    for given in &scan.settings {
        if !given.setting.is_of(command) {
            return Err(Mistake::NoSetting(command, given.setting));
        }
    }
    if !command.has_link() {
        see_pair(command, scan, Setting::Overhead, Setting::Rate)?;
    }
    see_pair(command, scan, Setting::RankBits, Setting::EntryBits)?;
    see_pair(command, scan, Setting::EntryBits, Setting::RankBits)
}

/// Returns whether a command can write its results in this form: events as JSON lines, and sums.
/// `size` has JSON alone.
fn has_view(command: Command, view: View) -> bool {
    match command {
        Command::Direct | Command::Replay | Command::Link => true,
        Command::Size => view == View::Json,
        _ => false,
    }
}

/// Checks that the command has the option for events and sums that is given, and that there are no
/// taps with it.
fn see_view<'a>(command: Command, scan: &Scan<'a>) -> Result<(), Mistake<'a>> {
    let Some(view) = scan.view else {
        return Ok(());
    };
    if !has_view(command, view) {
        return Err(Mistake::NoView(command, view));
    }
    if !scan.taps.is_empty() {
        return Err(Mistake::TapsWithView(view));
    }
    Ok(())
}

/// Returns whether a command has no form on rank stores.
fn is_left_out(command: Command) -> bool {
    command == Command::Via || command == Command::Forward
}

/// Returns the output file, or none for standard output, which is also named `-`.
fn output_of<'a>(output: Option<&'a str>) -> Option<&'a str> {
    match output {
        Some("-") => None,
        _ => output,
    }
}

/// Checks a command's options and arguments, except its rate and its output.
fn see_command<'a>(command: Command, scan: &mut Scan<'a>) -> Result<(), Mistake<'a>> {
    if scan.block && is_left_out(command) {
        return Err(Mistake::NoBlock(command));
    }
    if scan.upgrade && command != Command::Check {
        return Err(Mistake::NoUpgrade(command));
    }
    if command == Command::Replay {
        take_pairs(scan)?;
    } else if !scan.taps.is_empty() {
        return Err(Mistake::NoTaps(command));
    }
    see_settings(command, scan)?;
    see_view(command, scan)?;
    let has_rate = scan.word_of(Setting::Rate).is_some();
    see_arguments(command, has_rate, &scan.arguments)?;
    if scan.block && scan.arguments.len() < count_of(command, has_rate) {
        return Err(Mistake::BlockWithoutTarget(command));
    }
    see_taps(&scan.taps)?;
    if command == Command::Soak {
        see_load(&scan.arguments)?;
    }
    Ok(())
}

/// Checks a command's arguments and options, and returns the run that they request. `calm` is
/// about rank stores, with or without `--block`.
fn request_of<'a>(command: Command, mut scan: Scan<'a>) -> Result<Request<'a>, Mistake<'a>> {
    see_command(command, &mut scan)?;
    let rate = take_rate(command, &mut scan)?;
    let overhead = small_number_of(command, &scan, Setting::Overhead)?.unwrap_or(0);
    let sizes = sizes_of(command, &scan)?;
    let output = output_of(scan.output);
    see_output(&scan.arguments, output)?;
    let Scan {
        arguments,
        taps,
        view,
        block,
        upgrade,
        plain,
        quiet,
        ..
    } = scan;
    let options = Options {
        command,
        files: arguments,
        rate,
        overhead,
        view: view.unwrap_or(View::Report),
        sizes,
        taps,
        block: block || command == Command::Calm,
        upgrade,
        plain,
    };
    Ok(Request {
        options,
        output,
        quiet,
    })
}

/// Parses a command line. Fails with its first mistake.
pub fn ask<'a>(alloc: Global, words: &'a [String]) -> Result<Asked<'a>, Mistake<'a>> {
    let mut scan = tell_apart(alloc, words)?;
    if scan.version {
        return Ok(Asked::Version);
    }
    if scan.arguments.is_empty() {
        return if scan.help {
            Ok(Asked::Help(None))
        } else {
            Err(Mistake::NoCommand)
        };
    }
    let first = scan.arguments.remove(0);
    if first == "help" {
        return match scan.arguments.first() {
            Some(word) => help_of(word),
            None => Ok(Asked::Help(None)),
        };
    }
    if scan.help {
        return help_of(first);
    }
    match command_named(first) {
        Some(command) => Ok(Asked::Run(request_of(command, scan)?)),
        None => Err(Mistake::UnknownCommand(first)),
    }
}

/// Returns the request for the help of the command with this name.
fn help_of<'a>(word: &'a str) -> Result<Asked<'a>, Mistake<'a>> {
    match command_named(word) {
        Some(command) => Ok(Asked::Help(Some(command))),
        None => Err(Mistake::UnknownCommand(word)),
    }
}
