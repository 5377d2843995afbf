//! The words of the statements of a text.
use crate::breaks::{is_run_byte, is_word_byte, part};
use policy_text_defs::{Edition, is};
use std::alloc::{AllocError, Global};
use text_core::{Line, TokenFault, decimal, lines, tokens};

/// A word of a text: its first byte, and the byte after it.
#[derive(Clone, Copy)]
pub struct Word {
    pub start: usize,
    pub end: usize,
}

/// A line with a statement: its number, counted from 1, its first byte in the text and the byte
/// after its statement, and its words.
#[derive(Drop)]
pub struct Entry {
    pub line: u64,
    pub start: usize,
    pub end: usize,
    pub words: Vec<Word>,
}

/// Returns whether the statement bytes of a line are `policy 3`.
fn is_third(alloc: Global, line: &[u8]) -> Result<bool, AllocError> {
    match tokens(alloc, line) {
        Ok(found) => Ok(match found.as_slice() {
            [word, number] => {
                is(part(line, word.start, word.end), "policy")
                    && decimal(part(line, number.start, number.end)) == Some(3)
            }
            _ => false,
        }),
        Err(TokenFault::Bad(_)) => Ok(false),
        Err(TokenFault::NoMemory) => Err(AllocError),
    }
}

/// Returns the edition of a policy: the third one if its first statement is `policy 3`. Fails if out
/// of memory.
pub fn edition_of(alloc: Global, text: &[u8]) -> Result<Edition, AllocError> {
    let lines = lines(alloc, text)?;
    for span in lines.as_slice() {
        let line = part(text, span.start, span.end);
        if is_third(alloc, line)? {
            return Ok(Edition::Third);
        }
        if line.iter().any(|byte| !matches!(*byte, b' ' | b'\t')) {
            break;
        }
    }
    Ok(Edition::Classic)
}

/// Returns whether a byte belongs to a word: a letter, a digit or `_`, in the third edition also `:`,
/// and `-` after another byte.
fn is_in_word(edition: Edition, byte: u8, is_first: bool) -> bool {
    match edition {
        Edition::Third => is_run_byte(byte) && !(is_first && byte == b'-'),
        Edition::Classic => is_word_byte(byte),
    }
}

/// Returns the words of a line.
fn words(
    alloc: Global,
    text: &[u8],
    span: Line,
    edition: Edition,
) -> Result<Vec<Word>, AllocError> {
    let mut found = Vec::new(alloc);
    let mut start = span.start;
    let mut end = span.start;
    for byte in part(text, span.start, span.end) {
        let next = end.saturating_add(1);
        if !is_in_word(edition, *byte, start == end) {
            if start < end {
                found.push(Word { start, end })?;
            }
            start = next;
        }
        end = next;
    }
    if start < end {
        found.push(Word { start, end })?;
    }
    Ok(found)
}

/// Returns the lines of a text that have words, split as in this edition. Fails if out of memory.
pub fn entries(alloc: Global, text: &[u8], edition: Edition) -> Result<Vec<Entry>, AllocError> {
    let lines = lines(alloc, text)?;
    let mut found = Vec::new(alloc);
    let mut line: u64 = 0;
    for span in lines.as_slice() {
        line = line.saturating_add(1);
        let words = words(alloc, text, *span, edition)?;
        if !words.is_empty() {
            found.push(Entry {
                line,
                start: span.start,
                end: span.end,
                words,
            })?;
        }
    }
    Ok(found)
}

/// Returns the bytes of a word.
pub fn bytes_of<'a>(text: &'a [u8], word: Word) -> &'a [u8] {
    part(text, word.start, word.end)
}

impl Entry {
    /// Returns the statement bytes of the line.
    pub fn statement<'a>(&self, text: &'a [u8]) -> &'a [u8] {
        part(text, self.start, self.end)
    }

    /// Returns a word by its index, or an empty one at the end of the line.
    pub fn word(&self, place: usize) -> Word {
        match self.words.get(place) {
            Some(word) => *word,
            None => Word {
                start: self.end,
                end: self.end,
            },
        }
    }

    /// Returns the bytes of a word by its index; none if there is no such word.
    pub fn bytes<'a>(&self, text: &'a [u8], place: usize) -> &'a [u8] {
        bytes_of(text, self.word(place))
    }

    /// Returns whether the first word is this one.
    pub fn begins(&self, text: &[u8], keyword: &str) -> bool {
        is(self.bytes(text, 0), keyword)
    }

    /// Returns the index after the first word with this spelling, or the number of words.
    fn index_after(&self, text: &[u8], spelling: &str) -> usize {
        let mut place: usize = 0;
        for word in &self.words {
            place = place.saturating_add(1);
            if is(bytes_of(text, *word), spelling) {
                return place;
            }
        }
        place
    }

    /// Returns the first word with this spelling.
    pub fn find(&self, text: &[u8], spelling: &str) -> Option<Word> {
        for word in &self.words {
            if is(bytes_of(text, *word), spelling) {
                return Some(*word);
            }
        }
        None
    }

    /// Returns the words after the first one with this spelling.
    pub fn after<'e>(&'e self, text: &[u8], spelling: &str) -> &'e [Word] {
        let start = self.index_after(text, spelling).min(self.words.len());
        &self.words[start..]
    }

    /// Returns the names that a node or leaf lists.
    pub fn listed<'e>(&'e self, text: &[u8]) -> &'e [Word] {
        let list = if self.begins(text, "leaf") {
            "classes"
        } else {
            "children"
        };
        self.after(text, list)
    }
}
