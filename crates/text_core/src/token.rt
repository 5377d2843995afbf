//! The tokens of a line.
ghost use Rattle.std.specs.Prelude.{◌≡◌, ◌⊎◌, ◌+◌, ◌<◌, ◌≤◌, ℕ, length, List, [], take_while, drop, IfOk, IfSome, OnSome, option_map};
ghost use Rattle.std.specs.List.{prefix_len, list_all, All};
ghost use Rattle.text_core.specs.Tokens.{is_blank, is_digit, is_word_byte, is_word_start, is_run_start, is_run_byte, is_brace, run_kind, token_at, third_token_at, token_in, mark_length, Stand, StandIn, IsFaultOf, IsFaultIn, StandsIn};

use crate::dialect::Dialect;
use list_core::List;
use std::alloc::{AllocError, AllocFailed, Global};

/// The kind of a token.
#[derive(Clone, Copy, Debug, PartialEq, Eq)]
pub enum TokenKind {
    Word,
    Number,
    Mark,
}

/// The span of a token in its line.
#[derive(Clone, Copy, Debug, PartialEq, Eq)]
pub struct Token {
    pub kind: TokenKind,
    pub start: usize,
    pub end: usize,
}

/// Why a line can't be split into tokens.
#[derive(Debug, Drop)]
pub enum TokenFault {
    /// No token begins at this offset.
    Bad(usize),
    NoMemory,
}

impl From<AllocError> for TokenFault {
    ghost use Rattle.std.specs.Prelude.{◌≡◌};
    ghost use Rattle.text_core.specs.declared.token.TokenFault.TheVariants.{NoMemory};

    ghost from_gives = { λ _ e. e ≡ NoMemory };

    fn from(_: AllocError) -> Self {
        TokenFault::NoMemory
    }
}

impl<T: Drop> From<AllocFailed<T>> for TokenFault {
    ghost use Rattle.std.specs.Prelude.{◌≡◌};
    ghost use Rattle.text_core.specs.declared.token.TokenFault.TheVariants.{NoMemory};

    ghost from_gives = { λ _ e. e ≡ NoMemory };

    fn from(_: AllocFailed<T>) -> Self {
        TokenFault::NoMemory
    }
}

fn is_blank(byte: u8) -> bool
    ensures { result ≡ is_blank byte }
{
    matches!(byte, b' ' | b'\t')
}

fn is_word_start(byte: u8) -> bool
    ensures { result ≡ is_word_start byte }
{
    byte.is_ascii_alphabetic() || byte == b'_'
}

fn is_digit(byte: u8) -> bool
    ensures { result ≡ is_digit byte }
{
    byte.is_ascii_digit()
}

fn is_word_byte(byte: u8) -> bool
    ensures { result ≡ is_word_byte byte }
{
    is_word_start(byte) || is_digit(byte)
}

/// Returns the number of leading blanks.
fn blanks(bytes: &[u8]) -> usize
    ensures count { result ≡ prefix_len is_blank bytes.now }
    ensures within { result ≤ length bytes.now }
{
    bytes.iter().take_while(|byte| is_blank(**byte)).count()
}

/// Returns the number of leading word bytes.
fn word_bytes(bytes: &[u8]) -> usize
    ensures { result ≡ prefix_len is_word_byte bytes.now }
{
    bytes.iter().take_while(|byte| is_word_byte(**byte)).count()
}

/// Returns the number of leading digits.
fn digits(bytes: &[u8]) -> usize
    ensures { result ≡ prefix_len is_digit bytes.now }
{
    bytes.iter().take_while(|byte| is_digit(**byte)).count()
}

/// Returns the length of the longest mark at the start of the bytes.
fn mark_length(bytes: &[u8]) -> Option<usize>
    ensures { result ≡ mark_length bytes.now }
{
    match bytes {
        [b'.', b'.', ..] | [b'=' | b'!' | b'<' | b'>', b'=', ..] => Some(2),
        [
            b'.' | b'/' | b'+' | b'-' | b'*' | b'(' | b')' | b',' | b'=' | b'<' | b'>',
            ..
        ] => Some(1),
        _ => None,
    }
}

/// Returns the kind and the length of the longest classic token at the start of the bytes.
fn token_at(bytes: &[u8]) -> Option<(TokenKind, usize)>
    ensures token { result ≡ token_at bytes.now }
    ensures fits { IfSome result (λ r. (0 < r.1) × (r.1 ≤ length bytes.now)) }
{
    let first = *bytes.first()?;
    if is_word_start(first) {
        return Some((TokenKind::Word, word_bytes(bytes)));
    }
    if !is_digit(first) {
        return mark_length(bytes).map(|length| (TokenKind::Mark, length));
    }
    let length = digits(bytes);
    if length < bytes.len() && is_word_start(bytes[length]) {
        return None;
    }
    Some((TokenKind::Number, length))
}

fn is_run_start(byte: u8) -> bool
    ensures { result ≡ is_run_start byte }
{
    is_word_byte(byte) || byte == b':'
}

fn is_run_byte(byte: u8) -> bool
    ensures { result ≡ is_run_byte byte }
{
    is_run_start(byte) || byte == b'-'
}

fn is_brace(byte: u8) -> bool
    ensures { result ≡ is_brace byte }
{
    byte == b'{' || byte == b'}'
}

/// Returns the number of leading bytes of a run.
fn run_bytes(bytes: &[u8]) -> usize
    ensures count { result ≡ prefix_len is_run_byte bytes.now }
    ensures within { result ≤ length bytes.now }
{
    bytes.iter().take_while(|byte| is_run_byte(**byte)).count()
}

fn are_digits(bytes: &[u8]) -> bool
    ensures { result ≡ list_all is_digit bytes.now }
{
    bytes.iter().all(|byte| is_digit(*byte))
}

/// Returns the kind of a run: a number if all bytes are digits, otherwise a word.
fn run_kind(run: &[u8]) -> TokenKind
    ensures { result ≡ run_kind run.now }
{
    if are_digits(run) {
        TokenKind::Number
    } else {
        TokenKind::Word
    }
}

/// Returns the kind and the length of the token of the third dialect at the start of the bytes.
fn third_token_at(bytes: &[u8]) -> Option<(TokenKind, usize)>
    ensures token { result ≡ third_token_at bytes.now }
    ensures fits { IfSome result (λ r. (0 < r.1) × (r.1 ≤ length bytes.now)) }
{
    let first = *bytes.first()?;
    if is_run_start(first) {
        let length = run_bytes(bytes);
        return Some((run_kind(&bytes[..length]), length));
    }
    if is_brace(first) {
        return Some((TokenKind::Mark, 1));
    }
    mark_length(bytes).map(|length| (TokenKind::Mark, length))
}

fn token_in(dialect: Dialect, bytes: &[u8]) -> Option<(TokenKind, usize)>
    ensures token { result ≡ token_in dialect bytes.now }
    ensures fits { IfSome result (λ r. (0 < r.1) × (r.1 ≤ length bytes.now)) }
{
    match dialect {
        Dialect::Classic => token_at(bytes),
        Dialect::Third => third_token_at(bytes),
    }
}

/// Returns the tokens of a line of this dialect.
pub fn tokens_in(alloc: Global, line: &[u8], dialect: Dialect) -> Result<List<Token>, TokenFault>
    ensures ok { IfOk result (λ ts. StandIn dialect line.now 0 ts (length line.now)) }
    ensures within { IfOk result (λ ts. All (StandsIn line.now) ts) }
    ensures bad { (p : ℕ) → result ≡ Err (TokenFault.Bad p) → IsFaultIn dialect line.now p }
    ensures fault { (p : ℕ) → IsFaultIn dialect line.now p → (result ≡ Err (TokenFault.Bad p)) ⊎
        (result ≡ Err TokenFault.NoMemory) }
{
    let mut found = List::from_vec(Vec::new(alloc));
    let mut at = blanks(line);
    while at < line.len() {
        let Some((kind, length)) = token_in(dialect, &line[at..]) else {
            return Err(TokenFault::Bad(at));
        };
        let end = at + length;
        found.push(Token {
            kind,
            start: at,
            end,
        })?;
        at = end + blanks(&line[end..]);
    }
    Ok(found)
}

/// Returns the tokens of a line of the classic dialect.
pub fn tokens(alloc: Global, line: &[u8]) -> Result<List<Token>, TokenFault>
    ensures ok { IfOk result (λ ts. Stand line.now 0 ts (length line.now)) }
    ensures within { IfOk result (λ ts. All (StandsIn line.now) ts) }
    ensures bad { (p : ℕ) → result ≡ Err (TokenFault.Bad p) → IsFaultOf line.now p }
    ensures fault { (p : ℕ) → IsFaultOf line.now p → (result ≡ Err (TokenFault.Bad p)) ⊎ (result ≡
        Err TokenFault.NoMemory) }
{
    tokens_in(alloc, line, Dialect::Classic)
}
