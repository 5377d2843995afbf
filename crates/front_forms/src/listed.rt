//! Nodes, leaves and classes that aren't listed exactly once.
use crate::detail::Detail;
use crate::expected::say_quoted;
use crate::near::say_nearest;
use crate::rules::at_word;
use crate::wording::{say, say_number};
use crate::words::{Entry, bytes_of};
use policy_text_defs::is;
use std::alloc::{AllocError, Global};

/// Returns the numbers of the lines of one kind that list a name, once for each time.
fn lists_of(
    alloc: Global,
    text: &[u8],
    entries: &[Entry],
    keyword: &str,
    name: &[u8],
) -> Result<Vec<u64>, AllocError> {
    let mut found = Vec::new(alloc);
    for entry in entries {
        if entry.begins(text, keyword) {
            for word in entry.listed(text) {
                if bytes_of(text, *word) == name {
                    found.push(entry.line)?;
                }
            }
        }
    }
    Ok(found)
}

/// Appends where a name is listed.
fn say_lists(into: &mut Vec<u8>, name: &[u8], lists: &[u64]) -> Result<(), AllocError> {
    say(into, ", found ")?;
    say_quoted(into, name)?;
    match lists {
        [first, second, ..] => {
            say(into, " on line ")?;
            say_number(into, *first)?;
            say(into, " and again on line ")?;
            say_number(into, *second)
        }
        _ => say(into, " in no list"),
    }
}

/// Returns whether a node or leaf is named `root`.
fn has_root(text: &[u8], entries: &[Entry]) -> bool {
    for entry in entries {
        let is_node = entry.begins(text, "leaf") || entry.begins(text, "node");
        if is_node && is(entry.bytes(text, 1), "root") {
            return true;
        }
    }
    false
}

/// Appends that there is no root, while a node or leaf is in no list.
fn say_no_root(alloc: Global, into: &mut Vec<u8>, name: &[u8]) -> Result<(), AllocError> {
    say(into, "expected a node or leaf named root, found none; ")?;
    say_quoted(into, name)?;
    say(into, " is in no list")?;
    say_nearest(alloc, into, name, &["root"])
}

/// Returns the node or leaf that isn't listed exactly once as a child.
pub fn orphan_detail(
    alloc: Global,
    text: &[u8],
    entries: &[Entry],
    entry: &Entry,
) -> Result<Option<Detail>, AllocError> {
    let name = entry.bytes(text, 1);
    let lists = lists_of(alloc, text, entries, "node", name)?;
    let mut message = Vec::new(alloc);
    if lists.is_empty() && !has_root(text, entries) {
        say_no_root(alloc, &mut message, name)?;
    } else {
        say(
            &mut message,
            "expected each node and leaf but root to be listed as a child exactly once",
        )?;
        say_lists(&mut message, name, &lists)?;
    }
    Ok(Some(at_word(entry, entry.word(1), message)))
}

/// Returns the class that isn't listed exactly once by leaves.
pub fn class_detail(
    alloc: Global,
    text: &[u8],
    entries: &[Entry],
    entry: &Entry,
) -> Result<Option<Detail>, AllocError> {
    let name = entry.bytes(text, 1);
    let lists = lists_of(alloc, text, entries, "leaf", name)?;
    let mut message = Vec::new(alloc);
    say(
        &mut message,
        "expected each class to be listed by leaves exactly once",
    )?;
    say_lists(&mut message, name, &lists)?;
    Ok(Some(at_word(entry, entry.word(1), message)))
}
