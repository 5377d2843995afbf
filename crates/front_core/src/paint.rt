//! Colours of messages at a terminal.
ghost use Rattle.std.specs.Prelude.{◌≤◌, length, IfSome};

use std::alloc::{AllocError, Global};

/// Begins red text.
const RED: &[u8] = b"\x1b[1;31m";

/// Begins yellow text.
const YELLOW: &[u8] = b"\x1b[1;33m";

/// Begins green text.
const GREEN: &[u8] = b"\x1b[1;32m";

/// Ends coloured text.
const DEFAULT: &[u8] = b"\x1b[0m";

/// Appends a text in a colour.
fn paint(into: &mut Vec<u8>, colour: &[u8], text: &[u8]) -> Result<(), AllocError> {
    into.extend_from_slice(colour)?;
    into.extend_from_slice(text)?;
    into.extend_from_slice(DEFAULT)
}

/// Returns the first index of a word in a line.
fn place_of(line: &[u8], word: &[u8]) -> Option<usize>
    ensures { IfSome result (λ place. place ≤ length line.now) }
{
    (0..line.len()).find(|place| line[*place..].starts_with(word))
}

/// Appends a line, up to its end with this word in a colour. Returns whether the word is there.
fn paint_word(
    into: &mut Vec<u8>,
    line: &[u8],
    word: &[u8],
    colour: &[u8],
) -> Result<bool, AllocError> {
    let Some(place) = place_of(line, word) else {
        return Ok(false);
    };
    let (before, rest) = line.split_at(place);
    into.extend_from_slice(before)?;
    paint(into, colour, word)?;
    into.extend_from_slice(&rest[word.len().min(rest.len())..])?;
    Ok(true)
}

/// Returns whether a line has a caret only.
fn is_caret(line: &[u8]) -> bool {
    line.contains(&b'^') && line.iter().all(|byte| matches!(*byte, b' ' | b'\t' | b'^'))
}

/// Appends a line without its line end. A line that begins with a space is part of a message, and
/// the others begin one.
fn paint_line(into: &mut Vec<u8>, line: &[u8]) -> Result<(), AllocError> {
    if is_caret(line) {
        return paint(into, GREEN, line);
    }
    let is_part = line.starts_with(b" ");
    if is_part
        || !paint_word(into, line, b"error:", RED)?
            && !paint_word(into, line, b"warning:", YELLOW)?
    {
        into.extend_from_slice(line)?;
    }
    Ok(())
}

/// Returns messages with colours for a terminal. Fails if out of memory.
pub fn painted(alloc: Global, text: &[u8]) -> Result<Vec<u8>, AllocError> {
    let mut into = Vec::new(alloc);
    for (place, line) in text.split(|byte| *byte == b'\n').enumerate() {
        if place != 0 {
            into.push(b'\n')?;
        }
        paint_line(&mut into, line)?;
    }
    Ok(into)
}
