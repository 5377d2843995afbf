//! Messages for mistakes in the command line.
ghost use Rattle.std.specs.Prelude.{◌≤◌, length};

use crate::mistake::Mistake;
use front_defs::{
    COMMANDS, Command, OPTIONS, Range, RateFault, Setting, TAPS, View, argument_of, form_of,
    option_of,
};
use front_forms::{nearest, say, say_around, say_names, say_short, say_thousands};
use std::alloc::{AllocError, Global};

/// The message for a rate that is too small or too great.
const OUT_OF_RANGE: &str = "it isn't from 1 to 1,000,000,000,000 bytes a second";

/// Returns the number of digits at the start of the bytes.
fn digits(bytes: &[u8]) -> usize
    ensures { result ≤ length bytes.now }
{
    bytes
        .iter()
        .take_while(|byte| byte.is_ascii_digit())
        .count()
}

/// Returns why no number can be read from an argument.
fn number_reason(word: &[u8]) -> &'static str {
    let (whole, rest) = word.split_at(digits(word));
    match rest {
        [b'.', more @ ..] if whole.is_empty() || digits(more) == 0 => {
            "digits are missing before or after the point"
        }
        _ if whole.is_empty() => "it doesn't begin with a number",
        _ => OUT_OF_RANGE,
    }
}

/// Returns whether an argument begins with a digit or a point.
fn begins_number(word: &[u8]) -> bool {
    match word {
        [first, ..] => first.is_ascii_digit() || *first == b'.',
        [] => false,
    }
}

/// Returns why an argument is not a rate.
fn rate_reason(word: &[u8], fault: RateFault) -> &'static str {
    match fault {
        RateFault::NoNumber => number_reason(word),
        RateFault::NoUnit if !begins_number(word) => "it doesn't begin with a number",
        RateFault::NoUnit => "it isn't a number with a unit that is known",
        RateFault::TooFine => "it has more than twelve digits after the point",
        RateFault::NotExact => "it isn't a whole number of bytes a second",
        RateFault::OutOfRange => OUT_OF_RANGE,
    }
}

/// Appends the name that an argument probably means, or all the names.
fn say_near(
    alloc: Global,
    into: &mut Vec<u8>,
    word: &str,
    names: &[&'static str],
) -> Result<(), AllocError> {
    match nearest(alloc, word, names)? {
        Some(name) => say_around(into, "; did you mean ", name, "?"),
        None => {
            say(into, "; there are")?;
            say_names(into, names)
        }
    }
}

/// Appends that an argument is none of these names.
fn say_unknown(
    alloc: Global,
    into: &mut Vec<u8>,
    what: &str,
    word: &str,
    names: &[&'static str],
) -> Result<(), AllocError> {
    say_around(into, "expected ", what, ", found ")?;
    say_short(into, word)?;
    say_near(alloc, into, word, names)
}

/// Appends which whole number was expected.
fn say_no_number(
    alloc: Global,
    into: &mut Vec<u8>,
    name: &str,
    word: &str,
    range: Range,
) -> Result<(), AllocError> {
    say(into, "expected a whole number from ")?;
    say_thousands(alloc, into, range.least)?;
    say(into, " to ")?;
    say_thousands(alloc, into, range.most)?;
    say_around(into, " for ", name, ", found ")?;
    say_short(into, word)
}

/// Appends that an option is given without another one that it needs.
fn say_alone(into: &mut Vec<u8>, setting: Setting, other: Setting) -> Result<(), AllocError> {
    say_around(into, "expected ", other.name(), "")?;
    say_around(into, " with ", setting.name(), ", found none")
}

/// Appends that a command doesn't have an option, and which commands do.
fn say_no_setting(
    into: &mut Vec<u8>,
    command: Command,
    setting: Setting,
) -> Result<(), AllocError> {
    say_around(into, "expected no ", setting.name(), "")?;
    say_around(into, " at ", command.word(), "")?;
    match setting {
        Setting::Overhead => say(
            into,
            ", which has no link: it is for link, forward and size",
        ),
        Setting::Rate if command.has_link() => {
            say(into, ": it is for size, and RATE is the last argument here")
        }
        _ => say(into, ": it is for size"),
    }
}

/// Appends that an option's value is a second one.
fn say_twice(into: &mut Vec<u8>, setting: Setting, word: &str) -> Result<(), AllocError> {
    say_around(into, "expected one ", setting.name(), ", found ")?;
    say_short(into, word)?;
    say(into, " as a second one")
}

/// Returns the same parts for a mistake about the options for events and sums, and about rank stores.
fn option_parts_of<'a>(mistake: Mistake<'a>) -> (&'static str, &'a str, &'static str) {
    match mistake {
        Mistake::NoView(command, View::Json) => (
            "expected no --json at ",
            command.word(),
            ": it is for direct, replay, link and size",
        ),
        Mistake::NoView(command, _) => (
            "expected no --summary at ",
            command.word(),
            ": it is for direct, replay and link",
        ),
        Mistake::TapsWithView(view) => (
            "expected no taps with ",
            option_of(view),
            ": their lines end a report",
        ),
        Mistake::NoUpgrade(command) => (
            "expected no --upgrade at ",
            command.word(),
            ": it is for check",
        ),
        Mistake::BlockWithoutTarget(command) => (
            "expected TARGET for --block at ",
            command.word(),
            ", found none: without a target there are no rank stores",
        ),
        Mistake::ScriptAndRate(word) => (
            "expected SCRIPT or --rate, found both: the script is ",
            word,
            "",
        ),
        Mistake::TwoViews => ("expected one of --json and --summary, found two", "", ""),
        Mistake::NoSummary(word) => (
            "expected --summary or --summary=json, found --summary=",
            word,
            "",
        ),
        _ => ("out of memory", "", ""),
    }
}

/// Returns the argument that a mistake names, with the text before and after it.
fn parts_of<'a>(mistake: Mistake<'a>) -> (&'static str, &'a str, &'static str) {
    match mistake {
        Mistake::NoValue(word) => ("expected a value after ", word, ", found none"),
        Mistake::EmptyValue(word) => ("expected a value for ", word, ", found an empty one"),
        Mistake::OutputTwice(word) => ("expected one output, found ", word, " as a second one"),
        Mistake::NoTapName => ("expected a name after ", "tap", ", found no more arguments"),
        Mistake::Empty(command, place) => (
            "expected ",
            argument_of(command, place),
            ", found an empty argument",
        ),
        Mistake::Missing(command, place) => (
            "expected ",
            argument_of(command, place),
            ", found no more arguments",
        ),
        Mistake::Unexpected(_, word) => ("expected no more arguments, found ", word, ""),
        Mistake::TapTwice(word) => ("expected each tap once, found ", word, " twice"),
        Mistake::NoTaps(command) => (
            "expected no taps at ",
            command.word(),
            ", which has none: taps are for replay",
        ),
        Mistake::NoBlock(command) => (
            "expected a command that runs on rank stores after --block, found ",
            command.word(),
            "; there are check plan replay link direct soak calm size",
        ),
        Mistake::OverInput(name) => (
            "expected an output that isn't an input, found ",
            name,
            " as both",
        ),
        _ => option_parts_of(mistake),
    }
}

/// Appends a description of the mistake.
fn say_mistake(alloc: Global, into: &mut Vec<u8>, mistake: Mistake<'_>) -> Result<(), AllocError> {
    match mistake {
        Mistake::NoCommand => {
            say(into, "expected a command, found none; there are")?;
            say_names(into, &COMMANDS)
        }
        Mistake::UnknownCommand(word) => say_unknown(alloc, into, "a command", word, &COMMANDS),
        Mistake::UnknownOption(word) => say_unknown(alloc, into, "an option", word, &OPTIONS),
        Mistake::UnknownTap(word) => say_unknown(alloc, into, "a tap", word, &TAPS),
        Mistake::NoRate(_, word, fault) => {
            say(into, "expected RATE, found ")?;
            say_short(into, word)?;
            say_around(into, ": ", rate_reason(word.as_bytes(), fault), "")
        }
        Mistake::NoNumber(_, name, word, range) => say_no_number(alloc, into, name, word, range),
        Mistake::NoSetting(command, setting) => say_no_setting(into, command, setting),
        Mistake::SettingTwice(setting, word) => say_twice(into, setting, word),
        Mistake::SettingAlone(_, setting, other) => say_alone(into, setting, other),
        Mistake::OptionForValue(option, word) => {
            say_around(into, "expected a value after ", option, ", found ")?;
            say_short(into, word)
        }
        _ => {
            let (before, word, after) = parts_of(mistake);
            say(into, before)?;
            say_short(into, word)?;
            say(into, after)
        }
    }
}

/// Returns the command whose form the message shows.
fn command_in(mistake: Mistake<'_>) -> Option<Command> {
    match mistake {
        Mistake::Missing(command, _) | Mistake::Unexpected(command, _) | Mistake::NoTaps(command) =>
            Some(command),
        Mistake::NoNumber(command, _, _, _) | Mistake::BlockWithoutTarget(command) => Some(command),
        Mistake::NoRate(command, _, _) | Mistake::Empty(command, _) => Some(command),
        Mistake::SettingAlone(command, _, _) => Some(command),
        Mistake::ScriptAndRate(_) => Some(Command::Size),
        Mistake::UnknownTap(_) | Mistake::TapTwice(_) | Mistake::NoTapName => Some(Command::Replay),
        _ => None,
    }
}

/// Returns a further line of the message for a mistake, or an empty text.
fn more_of(mistake: Mistake<'_>) -> &'static str {
    match mistake {
        Mistake::NoRate(_, _, _) => {
            "  RATE is a number with B, bit or nothing after it for bytes a second, as 10Mbit, 10gbit, 1.25MB or 125000\n"
        }
        Mistake::OptionForValue("-o" | "--output", _) => {
            "  help: write --output=NAME for a name that begins with -\n"
        }
        _ => "",
    }
}

/// Returns the message for a mistake in the command line. Fails if out of memory.
pub fn tell_mistake(alloc: Global, mistake: Mistake<'_>) -> Result<Vec<u8>, AllocError> {
    let mut text = Vec::new(alloc);
    say(&mut text, "zovatsemo: error: ")?;
    say_mistake(alloc, &mut text, mistake)?;
    match command_in(mistake) {
        Some(command) => say_around(&mut text, "\n  form: zovatsemo ", form_of(command), "\n")?,
        None => say(
            &mut text,
            "\n  zovatsemo --help lists commands and options\n",
        )?,
    }
    say(&mut text, more_of(mistake))?;
    Ok(text)
}
