//! The place of an error in a text, what was expected there, and what was found.
use crate::breaks::{first_break, part};
use crate::expected::{say_break, say_byte};
use crate::given::{map_detail, tree_detail};
use crate::rules::rule_detail;
use crate::steps::count_detail;
use crate::want::Place;
use crate::wording::say;
use crate::words::{edition_of, entries};
use policy_text_defs::Edition;
use report_core::FaultKind;
use std::alloc::{AllocError, Global};
use text_core::lines;

/// An error in a text.
#[derive(Clone, Copy)]
pub struct Error<'a> {
    pub kind: FaultKind,
    pub code: u64,
    /// The number of its line, or 0 if it has none.
    pub line: u64,
    pub text: &'a [u8],
    /// The text of the policy that the command reads; empty if it isn't known.
    pub policy: &'a [u8],
    /// The index of the first byte of a divisor that can be 0 in the line, if it is known.
    pub divisor: Option<usize>,
    /// The names of the built-in transactions.
    pub builtins: &'a [&'a str],
}

/// The place of an error, and its message.
#[derive(Drop)]
pub struct Detail {
    /// The number of its line, or 0 if it has none.
    pub line: u64,
    /// The index of its first byte in the line.
    pub column: usize,
    /// What was expected and what was found; empty if only the place is known.
    pub message: Vec<u8>,
}

/// Returns the statement bytes of the line with this number, counted from 1.
fn statement_at<'a>(
    alloc: Global,
    text: &'a [u8],
    line: u64,
) -> Result<Option<&'a [u8]>, AllocError> {
    let lines = lines(alloc, text)?;
    let Some(place) = usize::try_from(line)
        .ok()
        .and_then(|line| line.checked_sub(1))
    else {
        return Ok(None);
    };
    match lines.as_slice().get(place) {
        Some(span) => Ok(Some(part(text, span.start, span.end))),
        None => Ok(None),
    }
}

/// Returns the first token of a line of this edition that no form takes from this place on.
fn break_detail(
    alloc: Global,
    error: Error<'_>,
    edition: Edition,
    place: Place,
) -> Result<Option<Detail>, AllocError> {
    let Some(statement) = statement_at(alloc, error.text, error.line)? else {
        return Ok(None);
    };
    let Some(broken) = first_break(alloc, statement, edition, place)? else {
        return Ok(None);
    };
    let mut message = Vec::new(alloc);
    say_break(alloc, &mut message, statement, &broken)?;
    Ok(Some(Detail {
        line: error.line,
        column: broken.start,
        message,
    }))
}

/// Returns why a line has too deep an expression, if that is the only thing wrong with it.
fn depth_detail(alloc: Global, error: Error<'_>) -> Result<Option<Detail>, AllocError> {
    let Some(statement) = statement_at(alloc, error.text, error.line)? else {
        return Ok(None);
    };
    let mut message = Vec::new(alloc);
    say(
        &mut message,
        "expected an expression at most 64 deep, found a deeper one",
    )?;
    Ok(Some(Detail {
        line: error.line,
        column: value_column(statement),
        message,
    }))
}

/// Returns that `policy 3` is read only as the first statement, if a line that has a form is it.
fn version_detail(alloc: Global, error: Error<'_>) -> Result<Option<Detail>, AllocError> {
    let Some(statement) = statement_at(alloc, error.text, error.line)? else {
        return Ok(None);
    };
    let column = blanks(statement);
    if !part(statement, column, statement.len()).starts_with(b"policy") {
        return Ok(None);
    }
    let mut message = Vec::new(alloc);
    say(
        &mut message,
        "expected `policy 3` before all other statements, found it after one",
    )?;
    Ok(Some(Detail {
        line: error.line,
        column,
        message,
    }))
}

/// Returns why a line that has a form doesn't parse.
fn form_detail(alloc: Global, error: Error<'_>) -> Result<Option<Detail>, AllocError> {
    match version_detail(alloc, error)? {
        Some(detail) => Ok(Some(detail)),
        None => depth_detail(alloc, error),
    }
}

/// Returns the index of the first byte after the first `=` and blanks, or 0.
pub fn value_column(line: &[u8]) -> usize {
    let Some(mark) = line.iter().position(|byte| *byte == b'=') else {
        return 0;
    };
    let after = mark.saturating_add(1);
    after.saturating_add(blanks(part(line, after, line.len())))
}

/// Returns the number of blanks at the start of the bytes.
pub fn blanks(bytes: &[u8]) -> usize {
    bytes
        .iter()
        .take_while(|byte| matches!(**byte, b' ' | b'\t'))
        .count()
}

/// Returns the first byte of a line that isn't allowed.
fn byte_detail(alloc: Global, error: Error<'_>) -> Result<Option<Detail>, AllocError> {
    let Some(statement) = statement_at(alloc, error.text, error.line)? else {
        return Ok(None);
    };
    let is_bad = |byte: &u8| !matches!(*byte, b'\t' | b' '..=b'~');
    let Some(column) = statement.iter().position(is_bad) else {
        return Ok(None);
    };
    let mut message = Vec::new(alloc);
    say(&mut message, "expected printable ASCII, found ")?;
    say_byte(&mut message, statement.get(column).copied().unwrap_or(0))?;
    Ok(Some(Detail {
        line: error.line,
        column,
        message,
    }))
}

/// Returns the place of an error in a policy.
fn policy_detail(alloc: Global, error: Error<'_>) -> Result<Option<Detail>, AllocError> {
    match error.code {
        21 | 24 => Ok(None),
        22 => byte_detail(alloc, error),
        23 => {
            let edition = edition_of(alloc, error.text)?;
            match break_detail(alloc, error, edition, Place::Statement)? {
                Some(detail) => Ok(Some(detail)),
                None => form_detail(alloc, error),
            }
        }
        _ => {
            let edition = edition_of(alloc, error.text)?;
            let entries = entries(alloc, error.text, edition)?;
            rule_detail(alloc, error, &entries)
        }
    }
}

/// Returns the place of an error in a text and its message, if they are known. Fails if out of
/// memory.
pub fn detail_of(alloc: Global, error: Error<'_>) -> Result<Option<Detail>, AllocError> {
    match (error.kind, error.code) {
        (FaultKind::Policy, _) => policy_detail(alloc, error),
        (FaultKind::Script, 1) => break_detail(alloc, error, Edition::Classic, Place::Step),
        (FaultKind::Script, 2) => count_detail(alloc, error),
        (FaultKind::Map, 2) => {
            let edition = edition_of(alloc, error.policy)?;
            break_detail(alloc, error, edition, Place::Map)
        }
        (FaultKind::Map, 3..=8) => map_detail(alloc, error),
        (FaultKind::Tree, 2) => match break_detail(alloc, error, Edition::Classic, Place::Tree)? {
            Some(detail) => Ok(Some(detail)),
            None => tree_detail(alloc, error),
        },
        (FaultKind::Tree, 3) => tree_detail(alloc, error),
        _ => Ok(None),
    }
}
