//! The first token of a line that no form takes.
ghost use Rattle.std.specs.Prelude.{◌≤◌, length};

use crate::walk::Walk;
use crate::want::Place;
use list_core::List;
use policy_text_defs::{Edition, Mode};
use std::alloc::{AllocError, Global};
use text_core::{Dialect, Token, TokenFault, tokens_in};

/// The first token of a line that no form takes: its first byte, the byte after it, and what the
/// tokens before it mean. It is empty at the end of the line.
#[derive(Drop)]
pub struct Break {
    pub start: usize,
    pub end: usize,
    pub walk: Walk,
}

/// Returns the bytes from an index to another, as far as there are any.
pub fn part(bytes: &[u8], start: usize, end: usize) -> &[u8] {
    let end = end.min(bytes.len());
    let start = start.min(end);
    &bytes[start..end]
}

/// Returns whether a byte can be in a word.
pub fn is_word_byte(byte: u8) -> bool {
    byte.is_ascii_alphanumeric() || byte == b'_'
}

/// Returns the number of word bytes at the start of the bytes.
fn word_bytes(bytes: &[u8]) -> usize
    ensures { result ≤ length bytes.now }
{
    bytes.iter().take_while(|byte| is_word_byte(**byte)).count()
}

/// Returns whether a byte can be in a word of version 3 after its first byte.
pub fn is_run_byte(byte: u8) -> bool {
    is_word_byte(byte) || byte == b':' || byte == b'-'
}

/// Returns the word of version 3 around an index of a line.
pub fn run_at(line: &[u8], at: usize) -> &[u8] {
    let before = part(line, 0, at)
        .iter()
        .rev()
        .take_while(|byte| is_run_byte(**byte))
        .count();
    let after = part(line, at, line.len())
        .iter()
        .take_while(|byte| is_run_byte(**byte))
        .count();
    part(line, at.saturating_sub(before), at.saturating_add(after))
}

/// Returns the length of what stands where no token begins: digits with letters, or one byte.
fn bad_length(bytes: &[u8]) -> usize
    ensures { result ≤ length bytes.now }
{
    word_bytes(bytes).max(1).min(bytes.len())
}

/// Returns the tokens of a line up to the first place where no token begins, and that place, or the
/// length of the line.
fn good_tokens(
    alloc: Global,
    line: &[u8],
    dialect: Dialect,
) -> Result<(List<Token>, usize), AllocError> {
    let at = match tokens_in(alloc, line, dialect) {
        Ok(found) => return Ok((found, line.len())),
        Err(TokenFault::Bad(at)) => at,
        Err(TokenFault::NoMemory) => return Err(AllocError),
    };
    match tokens_in(alloc, part(line, 0, at), dialect) {
        Ok(found) => Ok((found, at)),
        Err(_) => Err(AllocError),
    }
}

/// Returns the first token of a line of this edition that no form takes, from this place on. Fails
/// if out of memory.
pub fn first_break(
    alloc: Global,
    line: &[u8],
    edition: Edition,
    place: Place,
) -> Result<Option<Break>, AllocError> {
    let (tokens, at) = good_tokens(alloc, line, Mode::Within(edition).dialect())?;
    let mut walk = Walk::new(alloc, edition, place);
    for token in tokens.as_slice() {
        if !walk.step(token.kind, part(line, token.start, token.end))? {
            let Token { start, end, .. } = *token;
            return Ok(Some(Break { start, end, walk }));
        }
    }
    let rest = part(line, at, line.len());
    if rest.is_empty() && walk.can_end() {
        return Ok(None);
    }
    let start = at.min(line.len());
    let end = start.saturating_add(bad_length(rest));
    Ok(Some(Break { start, end, walk }))
}
