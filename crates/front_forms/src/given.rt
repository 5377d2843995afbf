//! Lines of maps, and trees of topologies.
use crate::breaks::part;
use crate::detail::{Detail, Error, blanks};
use crate::expected::say_quoted;
use crate::near::say_nearest;
use crate::rules::{at_word, nodes_of};
use crate::wording::{say, say_number, say_thousands};
use crate::words::{Entry, Word, bytes_of, edition_of, entries};
use policy_text_defs::Edition;
use std::alloc::{AllocError, Global};

/// Returns the address of a map's line.
fn address_of(text: &[u8], entry: &Entry) -> Word {
    let after = entry.word(1).end;
    let start = after.saturating_add(blanks(part(text, after, entry.end)));
    let count = part(text, start, entry.end)
        .iter()
        .take_while(|byte| !matches!(**byte, b' ' | b'\t'))
        .count();
    Word {
        start,
        end: start.saturating_add(count),
    }
}

/// Returns what was expected of a map's line.
fn expected(code: u64) -> &'static str {
    match code {
        3 => "expected the name of a node of the policy, found ",
        4 => "expected each node once, found ",
        6 => "expected an address in the topology, found ",
        7 => "expected the root at the root, `-`, found it at ",
        _ => "expected a leaf where the policy has one, found none at ",
    }
}

/// Returns the place of an error in a line of a map. Fails if out of memory.
pub fn map_detail(alloc: Global, error: Error<'_>) -> Result<Option<Detail>, AllocError> {
    let edition = edition_of(alloc, error.policy)?;
    let entries = entries(alloc, error.text, edition)?;
    let mut message = Vec::new(alloc);
    for entry in entries.as_slice() {
        if entry.line == error.line {
            let is_name = error.code == 3 || error.code == 4;
            let word = if is_name {
                entry.word(1)
            } else {
                address_of(error.text, entry)
            };
            say(&mut message, expected(error.code))?;
            let found = bytes_of(error.text, word);
            say_quoted(&mut message, found)?;
            say_of_name(alloc, &mut message, error, &entries, found)?;
            return Ok(Some(at_word(entry, word, message)));
        }
    }
    Ok(None)
}

/// Appends the declared name that is near to one that isn't declared, or the first line of a name
/// that is written twice.
fn say_of_name(
    alloc: Global,
    into: &mut Vec<u8>,
    error: Error<'_>,
    entries: &[Entry],
    name: &[u8],
) -> Result<(), AllocError> {
    match error.code {
        3 => {
            let names = nodes_of(alloc, error)?;
            say_nearest(alloc, into, name, &names)
        }
        4 => say_first(into, error.text, entries, name),
        _ => Ok(()),
    }
}

/// Appends the first line of a map with this name.
fn say_first(
    into: &mut Vec<u8>,
    text: &[u8],
    entries: &[Entry],
    name: &[u8],
) -> Result<(), AllocError> {
    for entry in entries {
        if entry.bytes(text, 1) == name {
            say(into, " again, which is on line ")?;
            return say_number(into, entry.line);
        }
    }
    Ok(())
}

/// Returns the nodes and the levels of a line with a tree.
fn size_of(line: &[u8]) -> (u64, u64) {
    let mut nodes: u64 = 0;
    let mut depth: u64 = 0;
    let mut most: u64 = 0;
    for byte in line {
        match *byte {
            b'(' => {
                nodes = nodes.saturating_add(1);
                depth = depth.saturating_add(1);
                most = most.max(depth);
            }
            b')' => depth = depth.saturating_sub(1),
            b'l' => nodes = nodes.saturating_add(1),
            _ => (),
        }
    }
    (nodes, most)
}

/// Appends what is wrong with a line that has a tree.
fn say_tree(
    alloc: Global,
    into: &mut Vec<u8>,
    error: Error<'_>,
    entry: &Entry,
    first: &Entry,
) -> Result<(), AllocError> {
    if error.code == 2 {
        say(
            into,
            "expected one tree on one line, found a second; the first is on line ",
        )?;
        return say_number(into, first.line);
    }
    let (nodes, levels) = size_of(entry.statement(error.text));
    say(into, "expected at most 1,024 nodes and 64 levels, found ")?;
    say_thousands(alloc, into, nodes)?;
    say(into, " nodes and ")?;
    say_thousands(alloc, into, levels)?;
    say(into, " levels")
}

/// Returns what is wrong with a topology all of whose lines have trees. Fails if out of memory.
pub fn tree_detail(alloc: Global, error: Error<'_>) -> Result<Option<Detail>, AllocError> {
    let entries = entries(alloc, error.text, Edition::Classic)?;
    let mut message = Vec::new(alloc);
    let Some(first) = entries.first() else {
        say(&mut message, "expected one tree on one line, found none")?;
        return Ok(Some(Detail {
            line: 0,
            column: 0,
            message,
        }));
    };
    for entry in entries.as_slice() {
        if entry.line == error.line {
            say_tree(alloc, &mut message, error, entry, first)?;
            return Ok(Some(Detail {
                line: entry.line,
                column: blanks(entry.statement(error.text)),
                message,
            }));
        }
    }
    Ok(None)
}
