//! The divisor of a policy's line that can be 0.
use policy_core::resolve;
use policy_rules::PolicyFault;
use policy_text::{Edition, Statement, parse_to};
use std::alloc::{AllocError, Global};
use text_core::{Line, Token, TokenFault, lines, tokens};

/// The most tokens of a line in which divisors are searched.
const MOST_TOKENS: usize = 1024;

/// The most bytes of all divisors of a line that are tried.
const MOST_BYTES: usize = 65_536;

/// A divisor: its first byte in the line, and the byte after it.
#[derive(Clone, Copy)]
struct Divisor {
    start: usize,
    end: usize,
}

/// Returns the bytes from an index to another, if there are any.
fn part(bytes: &[u8], start: usize, end: usize) -> &[u8] {
    match bytes.get(start..end) {
        Some(part) => part,
        None => b"",
    }
}

/// Returns the statement bytes of the line with this number, counted from 1.
fn line_at<'a>(text: &'a [u8], lines: &[Line], number: u64) -> &'a [u8] {
    let place = usize::try_from(number.saturating_sub(1)).unwrap_or(lines.len());
    match lines.get(place) {
        Some(line) => part(text, line.start, line.end),
        None => b"",
    }
}

/// Returns whether the first of some tokens is this mark.
fn begins(line: &[u8], tokens: &[Token], mark: &[u8]) -> bool {
    match tokens.first() {
        Some(token) => part(line, token.start, token.end) == mark,
        None => false,
    }
}

/// Returns the operand that some tokens begin with: a number, a word, a call, or an expression in
/// parentheses.
fn first_operand(line: &[u8], tokens: &[Token]) -> Option<Divisor> {
    let start = tokens.first()?.start;
    let mut open: usize = 0;
    for (place, token) in tokens.iter().enumerate() {
        match part(line, token.start, token.end) {
            b"(" => open = open.saturating_add(1),
            b")" => open = open.saturating_sub(1),
            _ => (),
        }
        if open == 0 && !begins(line, &tokens[place + 1..], b"(") {
            return Some(Divisor {
                start,
                end: token.end,
            });
        }
    }
    None
}

/// Returns the version that the first statement of a policy gives.
fn version_of(statements: &[(u32, Statement)]) -> u32 {
    match statements {
        [(_, Statement::Version(version)), ..] => *version,
        _ => 1,
    }
}

/// Returns the beginning of a policy of this version with a transaction without variables.
fn empty_transaction(alloc: Global, version: u32) -> Result<Vec<u8>, AllocError> {
    let line = format!(in alloc; "policy {version}\ntransaction t\n")?;
    let mut text = Vec::new(alloc);
    text.extend_from_slice(line.as_bytes())?;
    Ok(text)
}

/// Returns the beginning of a policy with a transaction that has the variables of the one to which
/// a line of a text belongs.
fn variables_before(
    alloc: Global,
    text: &[u8],
    lines: &[Line],
    statements: &[(u32, Statement)],
    line: u64,
) -> Result<Vec<u8>, AllocError> {
    let version = version_of(statements);
    let mut found = empty_transaction(alloc, version)?;
    for (number, statement) in statements {
        let number = u64::from(*number);
        match statement {
            Statement::Transaction(_) if number < line => {
                found = empty_transaction(alloc, version)?;
            }
            Statement::Keep(..) | Statement::Each(..) if number < line => {
                found.extend_from_slice(line_at(text, lines, number))?;
                found.push(b'\n')?;
            }
            _ => (),
        }
    }
    Ok(found)
}

/// Returns whether a divisor can be 0, as a policy with this beginning is judged whose only
/// divisors are this one and those inside it.
fn can_be_zero(alloc: Global, beginning: &[u8], divisor: &[u8]) -> Result<bool, AllocError> {
    let mut text = Vec::new(alloc);
    text.extend_from_slice(beginning)?;
    text.extend_from_slice(b"push rank = 1 / ")?;
    text.extend_from_slice(divisor)?;
    let Ok(lines) = parse_to(alloc, &text, Edition::Third) else {
        return Ok(false);
    };
    match resolve(alloc, &lines) {
        Err(PolicyFault::DivZero(_)) => Ok(true),
        Err(PolicyFault::NoMemory) => Err(AllocError),
        _ => Ok(false),
    }
}

/// Returns whether a divisor that begins after another is inside it, or there is no other.
fn is_inside(divisor: Divisor, other: Option<Divisor>) -> bool {
    match other {
        Some(other) => divisor.end < other.end,
        None => true,
    }
}

/// Returns the first divisor of a line that can be 0, or the innermost one inside it that can be 0.
/// Returns none if the divisors are longer than `MOST_BYTES` together.
fn zero_among(
    alloc: Global,
    beginning: &[u8],
    line: &[u8],
    tokens: &[Token],
) -> Result<Option<Divisor>, AllocError> {
    let mut found = None;
    let mut left = MOST_BYTES;
    for place in 0..tokens.len() {
        if begins(line, &tokens[place..], b"/")
            && let Some(divisor) = first_operand(line, &tokens[place + 1..])
            && is_inside(divisor, found)
        {
            let bytes = part(line, divisor.start, divisor.end);
            let Some(rest) = left.checked_sub(bytes.len()) else {
                return Ok(None);
            };
            left = rest;
            if can_be_zero(alloc, beginning, bytes)? {
                found = Some(divisor);
            }
        }
    }
    Ok(found)
}

/// Returns the divisor of a line that can be 0.
fn zero_in(alloc: Global, beginning: &[u8], line: &[u8]) -> Result<Option<Divisor>, AllocError> {
    match tokens(alloc, line) {
        Ok(tokens) if tokens.len() <= MOST_TOKENS => {
            zero_among(alloc, beginning, line, tokens.as_slice())
        }
        Ok(_) | Err(TokenFault::Bad(_)) => Ok(None),
        Err(TokenFault::NoMemory) => Err(AllocError),
    }
}

/// Returns the index of the first byte of the divisor that can be 0 in the line with this number,
/// counted from 1, of a policy's text. Returns none if there is no such divisor, or the line is too
/// long to find it soon. Fails if out of memory.
pub fn divisor_column(alloc: Global, text: &[u8], line: u64) -> Result<Option<usize>, AllocError> {
    let Ok(statements) = parse_to(alloc, text, Edition::Third) else {
        return Ok(None);
    };
    let lines = lines(alloc, text)?;
    let lines = lines.as_slice();
    let beginning = variables_before(alloc, text, lines, statements.entries(), line)?;
    match zero_in(alloc, &beginning, line_at(text, lines, line))? {
        Some(divisor) => Ok(Some(divisor.start)),
        None => Ok(None),
    }
}
