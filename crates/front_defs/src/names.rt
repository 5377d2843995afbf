//! The names of commands, of their arguments, of options and of taps.
use crate::command::Command;
use crate::number::Range;
use crate::view::View;
use events_core::MOST_OVERHEAD;
use text_core::MAX;

/// The names of the commands.
pub const COMMANDS: [&str; 10] = [
    "check", "plan", "replay", "link", "forward", "direct", "via", "soak", "calm", "size",
];

/// The names of the options.
pub const OPTIONS: [&str; 16] = [
    "--block",
    "--entry-bits",
    "--help",
    "--json",
    "--limit-entries",
    "--limit-rank-bits",
    "--output",
    "--overhead",
    "--plain",
    "--quiet",
    "--rank-bits",
    "--rate",
    "--summary",
    "--tap",
    "--upgrade",
    "--version",
];

/// The greatest width of a rank or of the rest of an entry in memory, in bits.
const MOST_WIDTH: u64 = 4096;

/// The greatest limit of a rank, in bits.
const MOST_BITS: u64 = 64;

/// The names of the taps.
pub const TAPS: [&str; 4] = ["bytes", "order", "first", "drops"];

/// An option whose value is a number.
#[derive(Clone, Copy, PartialEq, Eq, Debug)]
pub enum Setting {
    Overhead,
    Rate,
    RankBits,
    EntryBits,
    LimitEntries,
    LimitRankBits,
}

/// The options whose values are numbers.
pub const SETTINGS: [Setting; 6] = [
    Setting::Overhead,
    Setting::Rate,
    Setting::RankBits,
    Setting::EntryBits,
    Setting::LimitEntries,
    Setting::LimitRankBits,
];

impl Setting {
    /// Returns the option's name.
    pub fn name(self) -> &'static str {
        match self {
            Setting::Overhead => "--overhead",
            Setting::Rate => "--rate",
            Setting::RankBits => "--rank-bits",
            Setting::EntryBits => "--entry-bits",
            Setting::LimitEntries => "--limit-entries",
            Setting::LimitRankBits => "--limit-rank-bits",
        }
    }

    /// Returns the range of the option's value. A rate is read with its unit.
    pub fn range(self) -> Range {
        let (least, most) = match self {
            Setting::Overhead => (0, MOST_OVERHEAD as u64),
            Setting::RankBits | Setting::EntryBits => (1, MOST_WIDTH),
            Setting::LimitRankBits => (0, MOST_BITS),
            Setting::LimitEntries | Setting::Rate => (0, MAX),
        };
        Range { least, most }
    }

    /// Returns whether a command has the option.
    pub fn is_of(self, command: Command) -> bool {
        command.is_size() || self == Setting::Overhead && command.has_link()
    }
}

/// Returns the command with this name.
pub fn command_named(word: &str) -> Option<Command> {
    Some(match word {
        "check" => Command::Check,
        "plan" => Command::Plan,
        "replay" => Command::Replay,
        "link" => Command::Link,
        "forward" => Command::Forward,
        "direct" => Command::Direct,
        "via" => Command::Via,
        "soak" => Command::Soak,
        "calm" => Command::Calm,
        "size" => Command::Size,
        _ => return None,
    })
}

/// Returns the command's form, as in the first line of its help.
pub fn form_of(command: Command) -> &'static str {
    match command {
        Command::Check => "check POLICY [--upgrade]",
        Command::Plan => "plan POLICY TARGET",
        Command::Replay => "replay POLICY TARGET CAPTURE SCRIPT [--tap NAME]..",
        Command::Link => "link POLICY [TARGET] CAPTURE RATE [--overhead BYTES]",
        Command::Forward => "forward POLICY [TARGET] CAPTURE RATE [--overhead BYTES]",
        Command::Direct => "direct POLICY CAPTURE SCRIPT",
        Command::Via => "via POLICY TOPOLOGY MAP TARGET CAPTURE SCRIPT",
        Command::Soak => "soak SEED COUNT",
        Command::Calm => "calm POLICY TARGET",
        Command::Size => "size POLICY TARGET CAPTURE (SCRIPT | --rate RATE)",
    }
}

/// Returns the option that sets a view, or an empty text for reports.
pub fn option_of(view: View) -> &'static str {
    match view {
        View::Report => "",
        View::Json => "--json",
        View::Summary => "--summary",
        View::JsonSummary => "--summary=json",
    }
}

/// Returns the least number of arguments of a command. A link can have no target.
pub fn least_of(command: Command, has_rate: bool) -> usize {
    if command.has_link() {
        3
    } else {
        count_of(command, has_rate)
    }
}

/// Returns the greatest number of arguments of a command. `has_rate` says whether there is the
/// option `--rate`, which takes the place of a script.
pub fn count_of(command: Command, has_rate: bool) -> usize {
    match command {
        Command::Check => 1,
        Command::Plan | Command::Soak | Command::Calm => 2,
        Command::Direct => 3,
        Command::Size if has_rate => 3,
        Command::Size => 4,
        Command::Replay | Command::Link | Command::Forward => 4,
        Command::Via => 6,
    }
}

/// Returns the name of a command's argument. `place` is its index, counted from 0.
pub fn argument_of(command: Command, place: usize) -> &'static str {
    match (command, place) {
        (Command::Soak, 0) => "SEED",
        (Command::Soak, _) => "COUNT",
        (_, 0) => "POLICY",
        (Command::Via, 1) => "TOPOLOGY",
        (Command::Via, 2) => "MAP",
        (Command::Via, 3) => "TARGET",
        (Command::Via, 4) | (Command::Direct, 1) => "CAPTURE",
        (Command::Link | Command::Forward, 3) => "RATE",
        (Command::Plan | Command::Calm, 1) => "TARGET",
        (Command::Replay | Command::Link | Command::Forward | Command::Size, 1) => "TARGET",
        (Command::Replay | Command::Link | Command::Forward | Command::Size, 2) => "CAPTURE",
        (Command::Size, _) => "SCRIPT or --rate RATE",
        _ => "SCRIPT",
    }
}

/// Returns the index of an argument in the command's form, from its index among `count` arguments.
/// A link with fewer arguments than its form has no target.
pub fn place_in_form(command: Command, count: usize, place: usize) -> usize {
    if command.has_link() && count < count_of(command, false) && 0 < place {
        place.saturating_add(1)
    } else {
        place
    }
}
