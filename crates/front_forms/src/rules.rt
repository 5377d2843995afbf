//! The place of a broken rule in a policy, and the names that it is about.
use crate::detail::{Detail, Error, value_column};
use crate::expected::say_quoted;
use crate::listed::{class_detail, orphan_detail};
use crate::near::say_nearest;
use crate::wording::{say, say_around, say_number};
use crate::words::{Entry, Word, bytes_of, edition_of, entries};
use policy_text_defs::name_of;
use std::alloc::{AllocError, Global};
use std::collections::BTreeSet;

/// A space of names, in which each is declared once.
#[derive(Clone, Copy, PartialEq, Eq)]
pub enum Space {
    Transaction,
    Variable,
    Class,
    Node,
}

impl Space {
    /// Returns the space in which a statement with this first word declares its name.
    fn of(keyword: &[u8]) -> Option<Space> {
        Some(match keyword {
            b"transaction" => Space::Transaction,
            b"keep" | b"each" => Space::Variable,
            b"class" => Space::Class,
            b"leaf" | b"node" => Space::Node,
            _ => return None,
        })
    }

    fn label(self) -> &'static str {
        match self {
            Space::Transaction => "a transaction",
            Space::Variable => "a variable",
            Space::Class => "a class",
            Space::Node => "a node or leaf",
        }
    }
}

/// Returns the error at a word of a line.
pub fn at_word(entry: &Entry, word: Word, message: Vec<u8>) -> Detail {
    Detail {
        line: entry.line,
        column: word.start.saturating_sub(entry.start),
        message,
    }
}

/// Returns the index of the first line of the transaction that a line belongs to.
fn block_of(text: &[u8], entries: &[Entry], at: usize) -> usize {
    let mut first: usize = 0;
    let mut place: usize = 0;
    for entry in entries.iter().take(at) {
        if entry.begins(text, "transaction") {
            first = place;
        }
        place = place.saturating_add(1);
    }
    first
}

/// Returns the lines that can declare names of a space for the line at an index.
fn scope<'e>(text: &[u8], entries: &'e [Entry], at: usize, space: Space) -> &'e [Entry] {
    let is_local = space == Space::Variable;
    let count = entries.len();
    let end = if is_local { at.min(count) } else { count };
    let start = if is_local {
        block_of(text, entries, at).min(end)
    } else {
        0
    };
    &entries[start..end]
}

/// Appends what was expected of the order of statements.
fn say_order(
    into: &mut Vec<u8>,
    text: &[u8],
    last: Option<&Entry>,
    entry: &Entry,
) -> Result<(), AllocError> {
    let Some(last) = last else {
        say(
            into,
            "expected `policy 1`, `policy 2` or `policy 3` first, found ",
        )?;
        return say_quoted(into, entry.bytes(text, 0));
    };
    let expected = match entry.bytes(text, 0) {
        b"policy" => {
            "expected `policy 1`, `policy 2` or `policy 3` once and first, found a second one"
        }
        b"keep" | b"each" => "expected a variable after `transaction`, `keep` or `each`, found it",
        b"push" => "expected `push` in a transaction and before each `pop`, found it",
        _ => "expected `pop` in a transaction, found it",
    };
    say_around(into, expected, " after ", "")?;
    say_quoted(into, last.bytes(text, 0))?;
    say(into, " on line ")?;
    say_number(into, last.line)
}

/// Returns the line before that declares the same name in its space.
fn first_declared(
    text: &[u8],
    entries: &[Entry],
    at: usize,
    space: Space,
    name: &[u8],
) -> Option<u64> {
    let start = match space {
        Space::Variable => block_of(text, entries, at),
        _ => 0,
    };
    for entry in entries.iter().take(at).skip(start) {
        if Space::of(entry.bytes(text, 0)) == Some(space) && entry.bytes(text, 1) == name {
            return Some(entry.line);
        }
    }
    None
}

/// Appends that a name is declared twice.
fn say_twice(
    into: &mut Vec<u8>,
    text: &[u8],
    entries: &[Entry],
    at: usize,
    entry: &Entry,
) -> Result<(), AllocError> {
    let space = Space::of(entry.bytes(text, 0)).unwrap_or(Space::Node);
    let name = entry.bytes(text, 1);
    say_around(into, "expected a new name for ", space.label(), ", found ")?;
    say_quoted(into, name)?;
    match first_declared(text, entries, at, space, name) {
        Some(line) => {
            say(into, ", which is declared on line ")?;
            say_number(into, line)
        }
        None => say(into, ", which is built in"),
    }
}

/// Returns the names that lines declare in a space, after the built-in ones.
fn declared<'a>(
    alloc: Global,
    error: Error<'a>,
    entries: &[Entry],
    space: Space,
) -> Result<Vec<&'a str>, AllocError> {
    let mut found = Vec::new(alloc);
    if space == Space::Transaction {
        for name in error.builtins {
            found.push(*name)?;
        }
    }
    for entry in entries {
        if Space::of(entry.bytes(error.text, 0)) == Some(space) {
            if let Some(name) = name_of(entry.bytes(error.text, 1)) {
                found.push(name)?;
            }
        }
    }
    Ok(found)
}

/// Returns the names of the nodes and leaves of the policy that an error's text is for.
pub fn nodes_of<'a>(alloc: Global, error: Error<'a>) -> Result<Vec<&'a str>, AllocError> {
    let edition = edition_of(alloc, error.policy)?;
    let entries = entries(alloc, error.policy, edition)?;
    let policy = Error {
        text: error.policy,
        ..error
    };
    declared(alloc, policy, &entries, Space::Node)
}

/// Returns the first name among words that isn't one of these names.
fn first_unknown(
    alloc: Global,
    text: &[u8],
    words: &[Word],
    names: &[&str],
) -> Result<Option<Word>, AllocError> {
    let mut known = BTreeSet::new(alloc);
    for name in names {
        known.insert(*name)?;
    }
    for word in words {
        if let Some(name) = name_of(bytes_of(text, *word)) {
            if !known.contains(name) {
                return Ok(Some(*word));
            }
        }
    }
    Ok(None)
}

/// Returns the error that a word of a line isn't declared in a space, if there is such a word.
/// `scope` has the lines that can declare it.
fn unknown_in(
    alloc: Global,
    error: Error<'_>,
    entry: &Entry,
    words: &[Word],
    space: Space,
    scope: &[Entry],
) -> Result<Option<Detail>, AllocError> {
    let names = declared(alloc, error, scope, space)?;
    let Some(word) = first_unknown(alloc, error.text, words, &names)? else {
        return Ok(None);
    };
    let bytes = bytes_of(error.text, word);
    let mut message = Vec::new(alloc);
    say_around(
        &mut message,
        "expected the name of ",
        space.label(),
        " that is declared, found ",
    )?;
    say_quoted(&mut message, bytes)?;
    if space == Space::Variable && bytes.contains(&b'-') {
        say(&mut message, "; a difference has spaces around `-`")?;
    } else {
        say_nearest(alloc, &mut message, bytes, &names)?;
    }
    Ok(Some(at_word(entry, word, message)))
}

/// Returns the name of an assignment that isn't declared.
fn unknown_variable(
    alloc: Global,
    error: Error<'_>,
    entries: &[Entry],
    at: usize,
    entry: &Entry,
) -> Result<Option<Detail>, AllocError> {
    let scope = scope(error.text, entries, at, Space::Variable);
    unknown_in(alloc, error, entry, &entry.words, Space::Variable, scope)
}

/// Returns the name of a node or leaf that isn't declared.
fn unknown_name(
    alloc: Global,
    error: Error<'_>,
    entries: &[Entry],
    entry: &Entry,
) -> Result<Option<Detail>, AllocError> {
    let space = if entry.begins(error.text, "leaf") {
        Space::Class
    } else {
        Space::Node
    };
    let used = entry.after(error.text, "using");
    let used = &used[..used.len().min(1)];
    match unknown_in(alloc, error, entry, used, Space::Transaction, entries)? {
        Some(found) => Ok(Some(found)),
        None => unknown_in(
            alloc,
            error,
            entry,
            entry.listed(error.text),
            space,
            entries,
        ),
    }
}

/// Returns which limit a line is the first to exceed.
fn limit_text(keyword: &[u8]) -> &'static str {
    match keyword {
        b"class" => "expected at most 256 classes, found one more",
        b"leaf" | b"node" => "expected at most 1,024 nodes and leaves, found one more",
        b"transaction" => "expected at most 64 transactions, found one more",
        b"keep" | b"each" => "expected at most 16 variables in a transaction, found one more",
        _ => "expected at most 64 assignments in a transaction, found one more",
    }
}

/// Returns the last line that declares a class.
fn last_class<'e>(text: &[u8], entries: &'e [Entry]) -> Option<&'e Entry> {
    for entry in entries.iter().rev() {
        if entry.begins(text, "class") {
            return Some(entry);
        }
    }
    None
}

/// Returns the condition of the last class, or that there is no class.
fn last_class_detail(
    alloc: Global,
    text: &[u8],
    entries: &[Entry],
) -> Result<Option<Detail>, AllocError> {
    let mut message = Vec::new(alloc);
    say(
        &mut message,
        "expected a last class without a condition, found ",
    )?;
    let Some(entry) = last_class(text, entries) else {
        say(&mut message, "no class")?;
        return Ok(Some(Detail {
            line: 0,
            column: 0,
            message,
        }));
    };
    say(&mut message, "one with")?;
    let word = entry.find(text, "when").unwrap_or(entry.word(0));
    Ok(Some(at_word(entry, word, message)))
}

/// Returns the place of an error in the expression of a line: at the divisor that can be 0, or at the
/// whole expression.
fn value_detail(alloc: Global, error: Error<'_>, entry: &Entry) -> Detail {
    let column = match error.divisor {
        Some(column) => column,
        None => value_column(entry.statement(error.text)),
    };
    Detail {
        line: entry.line,
        column,
        message: Vec::new(alloc),
    }
}

/// Returns the word of a line that breaks a rule, after appending what is wrong with it. Nothing is
/// appended if only the place is known.
fn say_rule(
    into: &mut Vec<u8>,
    error: Error<'_>,
    entries: &[Entry],
    at: usize,
    entry: &Entry,
) -> Result<Word, AllocError> {
    let text = error.text;
    match error.code {
        1 => {
            let last = at.checked_sub(1).and_then(|place| entries.get(place));
            say_order(into, text, last, entry)?;
            Ok(entry.word(0))
        }
        2 => {
            say_twice(into, text, entries, at, entry)?;
            Ok(entry.word(1))
        }
        4 => {
            say(into, limit_text(entry.bytes(text, 0)))?;
            Ok(entry.word(0))
        }
        14 => Ok(entry.find(text, "limit").unwrap_or(entry.word(0))),
        _ => {
            say_tree(into, error.code, entry.bytes(text, 1))?;
            Ok(entry.word(1))
        }
    }
}

/// Returns the place of a broken rule in the line with this index.
fn line_detail(
    alloc: Global,
    error: Error<'_>,
    entries: &[Entry],
    at: usize,
    entry: &Entry,
) -> Result<Option<Detail>, AllocError> {
    match (error.code, entry.bytes(error.text, 0)) {
        (3, b"leaf" | b"node") => unknown_name(alloc, error, entries, entry),
        (3, _) => unknown_variable(alloc, error, entries, at, entry),
        (5..=7, _) => Ok(Some(value_detail(alloc, error, entry))),
        (8, _) => orphan_detail(alloc, error.text, entries, entry),
        (12, _) => class_detail(alloc, error.text, entries, entry),
        _ => {
            let mut message = Vec::new(alloc);
            let word = say_rule(&mut message, error, entries, at, entry)?;
            Ok(Some(at_word(entry, word, message)))
        }
    }
}

/// Appends what is wrong with a node's place in the tree.
fn say_tree(into: &mut Vec<u8>, code: u64, name: &[u8]) -> Result<(), AllocError> {
    say(
        into,
        match code {
            10 => "expected a tree, found ",
            _ => "expected at most 64 levels below the root, found ",
        },
    )?;
    say_quoted(into, name)?;
    say(
        into,
        match code {
            10 => " among its own descendants",
            _ => " below more",
        },
    )
}

/// Returns the place of a broken rule in a policy, and its message. Fails if out of memory.
pub fn rule_detail(
    alloc: Global,
    error: Error<'_>,
    entries: &[Entry],
) -> Result<Option<Detail>, AllocError> {
    if error.code == 13 {
        return last_class_detail(alloc, error.text, entries);
    }
    let mut at: usize = 0;
    for entry in entries {
        if entry.line == error.line {
            return line_detail(alloc, error, entries, at, entry);
        }
        at = at.saturating_add(1);
    }
    Ok(None)
}
