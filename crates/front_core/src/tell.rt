//! Messages for errors in files.
ghost use Rattle.std.specs.Prelude.{◌≤◌, length};

use crate::captures::capture_kind;
use crate::fault::Fault;
use crate::files::{is_text, name_shown};
use crate::lines::{blanks, clean_length, first_word, line_at};
use crate::statements::statement_form;
use crate::target::target_detail;
use front_defs::{Cause, Command, cause_of};
use front_forms::{
    Detail, Error, detail_of, edition_of, say, say_around, say_number, say_thousands,
};
use front_warnings::divisor_column;
use policy_rules::BUILTINS;
use policy_text_defs::Edition;
use report_core::FaultKind;
use std::alloc::{AllocError, Global};
use std::str;

/// The code for a line that does not parse.
const BAD_FORM: u64 = 23;

/// The code for a divisor that can be 0.
const ZERO_DIVISOR: u64 = 7;

/// The code for a byte that no statement has.
const BAD_BYTE: u64 = 22;

/// The code for a file with too few bytes for the header of a capture.
const NO_HEADER: u64 = 1;

/// The code for a file that is not a capture.
const NO_CAPTURE: u64 = 2;

/// The most bytes of a line that a message shows.
const MOST_SHOWN: usize = 160;

/// Returns the start of the part of a line that is shown, if `count` bytes of the line can be
/// shown.
fn shown_from(count: usize, column: usize) -> usize
    requires { column ≤ count }
    ensures { result ≤ column }
{
    if count <= MOST_SHOWN {
        0
    } else {
        column
            .saturating_sub(MOST_SHOWN / 2)
            .min(count - MOST_SHOWN)
    }
}

/// Appends a mark if a line is cut at this end.
fn say_cut(into: &mut Vec<u8>, is_cut: bool, mark: &str) -> Result<(), AllocError> {
    if is_cut { say(into, mark) } else { Ok(()) }
}

/// Appends a line as far as it can be shown, and a caret below `column`. A long line is cut around
/// that column.
fn say_line(into: &mut Vec<u8>, line: &[u8], column: usize) -> Result<(), AllocError> {
    let count = clean_length(line);
    if count == 0 {
        return Ok(());
    }
    let place = column.min(count);
    let from = shown_from(count, place);
    let to = count.min(from + MOST_SHOWN);
    say(into, "  ")?;
    say_cut(into, 0 < from, "..")?;
    into.extend_from_slice(&line[from..to])?;
    say_cut(into, to < count, "..")?;
    say(into, "\n  ")?;
    say_cut(into, 0 < from, "  ")?;
    for byte in &line[from..place] {
        into.push(if *byte == b'\t' { b'\t' } else { b' ' })?;
    }
    say(into, "^\n")
}

/// Returns a message on the encoding of a text, if it isn't ASCII or UTF-8 without a byte order mark.
fn encoding_of(text: &[u8]) -> Option<&'static str> {
    match text {
        [0xef, 0xbb, 0xbf, ..] => Some(
            "the file begins with a byte order mark: save it as UTF-8 without one",
        ),
        [0xff, 0xfe, ..] | [0xfe, 0xff, ..] => Some(
            "the file is in UTF-16: save it as UTF-8 without a byte order mark",
        ),
        [_, 0, ..] | [0, _, ..] => Some(
            "the file is in UTF-16 without a byte order mark, or isn't text: save it as UTF-8",
        ),
        _ if str::from_utf8(text).is_err() => Some(
            "the file isn't in UTF-8, perhaps in Latin-1 or Windows-1252: save it as UTF-8",
        ),
        _ => None,
    }
}

/// Appends the form of the statement in a line of a text of this edition.
fn say_form(
    into: &mut Vec<u8>,
    fault: Fault,
    edition: Edition,
    line: &[u8],
) -> Result<(), AllocError> {
    let (word, _) = first_word(line);
    match statement_form(fault.kind, edition, word) {
        Some(form) => say_around(into, "  form: ", form, "\n"),
        None if fault.kind == FaultKind::Policy && fault.code == BAD_FORM => say(
            into,
            "  statements begin with policy, transaction, keep, each, push, pop, class, leaf or node\n",
        ),
        None => Ok(()),
    }
}

/// Appends the description of an error, with the line that it is in and a caret at its column,
/// counted from 0.
pub fn say_at_line(
    into: &mut Vec<u8>,
    fault: Fault,
    edition: Edition,
    is: &str,
    line: &[u8],
    column: usize,
) -> Result<(), AllocError> {
    say_number(into, (column as u64).saturating_add(1))?;
    say_around(into, ": error: ", is, "\n")?;
    say_line(into, line, column)?;
    say_form(into, fault, edition, line)
}

/// Appends the description of an error whose place in the text is known.
fn say_detail(
    into: &mut Vec<u8>,
    fault: Fault,
    edition: Edition,
    cause: Cause,
    text: &[u8],
    detail: &Detail,
) -> Result<(), AllocError> {
    let is = match str::from_utf8(&detail.message) {
        Ok("") | Err(_) => cause.is,
        Ok(is) => is,
    };
    if detail.line == 0 {
        return say_around(into, " error: ", is, "\n");
    }
    say_number(into, detail.line)?;
    say(into, ":")?;
    let line = line_at(text, detail.line).unwrap_or(b"");
    say_at_line(into, fault, edition, is, line, detail.column)
}

/// Returns the line that an error is in, if its position is a line number.
fn line_of(fault: Fault, text: &[u8]) -> Option<&[u8]> {
    if fault.place == 0 {
        None
    } else {
        line_at(text, fault.place)
    }
}

/// Appends the description of an error, with the line that it is in, if the text is known.
fn say_in_text(
    into: &mut Vec<u8>,
    fault: Fault,
    edition: Edition,
    cause: Cause,
    text: Option<&[u8]>,
) -> Result<(), AllocError> {
    match text.and_then(|text| line_of(fault, text)) {
        Some(line) if !line.is_empty() => {
            say_number(into, fault.place)?;
            say(into, ":")?;
            return say_at_line(into, fault, edition, cause.is, line, blanks(line));
        }
        _ if fault.place != 0 => {
            say_number(into, fault.place)?;
            say(into, ":")?;
        }
        _ => (),
    }
    say_around(into, " error: ", cause.is, "\n")
}

/// Returns the type of a file that is not a capture, from its first bytes, if they are known.
fn kind_of(fault: Fault, front: Option<&[u8]>) -> Option<&'static str> {
    match (fault.kind, fault.code, front) {
        (FaultKind::Capture, NO_HEADER, Some([])) => Some("an empty file"),
        (FaultKind::Capture, NO_HEADER, _) => Some("fewer"),
        (FaultKind::Capture, NO_CAPTURE, Some(front)) => Some(capture_kind(front).0),
        (FaultKind::Capture, NO_CAPTURE, None) => Some("other bytes"),
        _ => None,
    }
}

/// Returns how to correct an error in a file with these first bytes.
fn help_for(fault: Fault, cause: Cause, front: Option<&[u8]>) -> &'static str {
    match (fault.kind, fault.code, front) {
        (FaultKind::Capture, NO_HEADER | NO_CAPTURE, Some(front)) => capture_kind(front).1,
        _ => cause.help,
    }
}

/// Appends the description of an error, and the number of the packet, block, event or node that it
/// is in.
fn say_at_place(
    alloc: Global,
    into: &mut Vec<u8>,
    fault: Fault,
    cause: Cause,
    front: Option<&[u8]>,
) -> Result<(), AllocError> {
    say_around(into, " error: ", cause.is, "")?;
    if let Some(kind) = kind_of(fault, front) {
        return say_around(into, " ", kind, "\n");
    }
    if fault.place != 0 {
        let what = match fault.kind {
            FaultKind::Capture if fault.code > 10 => "block",
            FaultKind::Capture => "packet",
            FaultKind::Script => "event",
            _ => "node",
        };
        say_around(into, " (", what, " ")?;
        say_thousands(alloc, into, fault.place)?;
        say(into, ")")?;
    }
    say(into, "\n")
}

/// Appends a hint on a wrong encoding of the whole text.
fn say_of_whole(into: &mut Vec<u8>, fault: Fault, text: &[u8]) -> Result<(), AllocError> {
    let is_of_bytes = match fault.kind {
        FaultKind::Policy => fault.code == BAD_BYTE,
        _ => is_text(fault.kind),
    };
    match encoding_of(text) {
        Some(encoding) if is_of_bytes => say_around(into, "  ", encoding, "\n"),
        _ => Ok(()),
    }
}

/// Returns whether the position of an error is a line number of its file.
fn is_at_line(fault: Fault) -> bool {
    let is_event = fault.kind == FaultKind::Script && fault.code == 3;
    let is_node = fault.kind == FaultKind::Map && (fault.code == 5 || fault.code == 9);
    is_text(fault.kind) && !is_event && !is_node
}

/// Returns the place of an error in a text, and what was expected and found there, if it is known.
fn detail_in(
    alloc: Global,
    fault: Fault,
    text: &[u8],
    policy: &[u8],
) -> Result<Option<Detail>, AllocError> {
    if !is_at_line(fault) {
        return Ok(None);
    }
    let divisor = match (fault.kind, fault.code) {
        (FaultKind::Policy, ZERO_DIVISOR) => divisor_column(alloc, text, fault.place)?,
        _ => None,
    };
    let error = Error {
        kind: fault.kind,
        code: fault.code,
        line: fault.place,
        text,
        policy,
        divisor,
        builtins: &BUILTINS,
    };
    match (fault.kind, fault.code) {
        (FaultKind::Target, 1..=3) => target_detail(alloc, error),
        _ => detail_of(alloc, error),
    }
}

/// Returns the edition of a text, which only policies choose.
fn edition_in(alloc: Global, fault: Fault, content: Option<&[u8]>) -> Result<Edition, AllocError> {
    match (fault.kind, content) {
        (FaultKind::Policy, Some(text)) => edition_of(alloc, text),
        _ => Ok(Edition::Classic),
    }
}

/// Appends the description of an error, with its position.
fn say_cause(
    alloc: Global,
    into: &mut Vec<u8>,
    fault: Fault,
    cause: Cause,
    content: Option<&[u8]>,
    policy: &[u8],
) -> Result<(), AllocError> {
    let edition = edition_in(alloc, fault, content)?;
    if let Some(text) = content
        && let Some(detail) = detail_in(alloc, fault, text, policy)?
    {
        return say_detail(into, fault, edition, cause, text, &detail);
    }
    if is_at_line(fault) {
        say_in_text(into, fault, edition, cause, content)
    } else {
        say_at_place(alloc, into, fault, cause, content)
    }
}

/// Returns the message for an error in the file of this name. `content` holds the start of the
/// file, if it is known, and `policy` the text of the command's policy, or nothing. Fails if out of
/// memory.
pub fn tell_fault(
    alloc: Global,
    fault: Fault,
    name: &str,
    content: Option<&[u8]>,
    policy: &[u8],
) -> Result<Vec<u8>, AllocError> {
    let cause = cause_of(fault.kind, fault.code);
    let mut text = Vec::new(alloc);
    say_around(&mut text, "", name_shown(name), ":")?;
    say_cause(alloc, &mut text, fault, cause, content, policy)?;
    if let Some(content) = content {
        say_of_whole(&mut text, fault, content)?;
    }
    say_around(&mut text, "  help: ", help_for(fault, cause, content), "\n")?;
    Ok(text)
}

/// Describes an exit status that comes without a `fault` line, and says what to do.
fn status_text(command: Command, status: u8) -> (&'static str, &'static str) {
    match status {
        7 => (
            "the capture is at fault after the departures that were written",
            "run `link` with the same arguments: it names the packet",
        ),
        9 => (
            "the output can't be written",
            "see whether its file system is full, or whether its reader ended",
        ),
        10 => (
            "out of memory",
            "see how many packets the policy holds, or give the run more memory",
        ),
        14 if command != Command::Forward => (
            "a sum is too great for 64 bits, and none is written",
            "see the capture's timestamps, or give a higher rate",
        ),
        14 => (
            "a departure would start at 2^32 seconds or later, which a capture can't say",
            "see the capture's timestamps, or give a higher rate",
        ),
        15 => (
            "a packet's link type isn't that of the first packet, and a capture has one",
            "split the capture by its link types",
        ),
        _ => ("the run ended without a reason", "run it with --plain"),
    }
}

/// Returns the message for an exit status that comes without a `fault` line. Fails if out of
/// memory.
pub fn tell_status(alloc: Global, command: Command, status: u8) -> Result<Vec<u8>, AllocError> {
    let (is, help) = status_text(command, status);
    let mut text = Vec::new(alloc);
    say_around(&mut text, "zovatsemo ", command.word(), ": error: ")?;
    say(&mut text, is)?;
    say_around(&mut text, "\n  help: ", help, "\n")?;
    Ok(text)
}
