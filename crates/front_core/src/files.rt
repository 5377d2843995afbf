//! The file that an error is in.
use front_defs::{Command, Options, is_own};
use report_core::FaultKind;

/// Returns the index of the file that an error is in, among the files of a command, counted from 0.
pub fn file_of(options: &Options<'_>, kind: FaultKind) -> Option<usize> {
    Some(match (kind, options.command) {
        (FaultKind::Policy, _) => 0,
        (FaultKind::Target | FaultKind::Size, Command::Via) => 3,
        (FaultKind::Target | FaultKind::Size, _) => 1,
        (FaultKind::Script, Command::Replay | Command::Size) => 3,
        (FaultKind::Script, Command::Direct) => 2,
        (FaultKind::Script, Command::Via) => 5,
        (FaultKind::Capture, Command::Direct) => 1,
        (FaultKind::Capture, Command::Via) => 4,
        (FaultKind::Capture, _) if is_own(options) => 1,
        (FaultKind::Capture, _) => 2,
        (FaultKind::Tree, _) => 1,
        (FaultKind::Map, _) => 2,
        _ => return None,
    })
}

/// Returns the name of the file with this index among a command's files.
fn named<'a>(options: &Options<'a>, place: usize) -> Option<&'a str> {
    options.files.get(place).copied()
}

/// Returns the name of a command's policy, if it has one.
pub fn policy_of<'a>(options: &Options<'a>) -> Option<&'a str> {
    match options.command {
        Command::Soak => None,
        _ => named(options, 0),
    }
}

/// Returns the name of a command's capture, if it has one.
pub fn capture_of<'a>(options: &Options<'a>) -> Option<&'a str> {
    match options.command {
        Command::Link | Command::Forward if is_own(options) => named(options, 1),
        Command::Replay | Command::Link | Command::Forward | Command::Size => named(options, 2),
        Command::Direct => named(options, 1),
        Command::Via => named(options, 4),
        _ => None,
    }
}

/// Returns the name of the target that a command lays a policy's own tree into, if it has one.
pub fn target_of<'a>(options: &Options<'a>) -> Option<&'a str> {
    match options.command {
        Command::Link | Command::Forward if is_own(options) => None,
        Command::Plan | Command::Replay | Command::Link | Command::Forward | Command::Size => named(
            options, 1,
        ),
        _ => None,
    }
}

/// Returns the index of the file that a command reads at this turn, both counted from 0. A script
/// is read before its capture.
pub fn file_read_at(options: &Options<'_>, turn: usize) -> usize {
    match (options.command, turn) {
        (Command::Size, 2) if options.rate.is_some() => 2,
        (Command::Replay | Command::Size, 2) => 3,
        (Command::Replay | Command::Size, 3) => 2,
        (Command::Direct, 1) => 2,
        (Command::Direct, 2) => 1,
        (Command::Via, 4) => 5,
        (Command::Via, 5) => 4,
        _ => turn,
    }
}

/// Returns the name of a file as messages show it.
pub fn name_shown(name: &str) -> &str {
    if name == "/dev/stdin" {
        "standard input"
    } else {
        name
    }
}

/// Returns whether an error of this kind is in a text, so that its position can be a line number.
pub fn is_text(kind: FaultKind) -> bool {
    matches!(
        kind,
        FaultKind::Policy | FaultKind::Target | FaultKind::Script | FaultKind::Tree | FaultKind::Map
    )
}
