//! What was expected at a place, and what was found.
use crate::breaks::{Break, part, run_at};
use crate::near::say_nearest;
use crate::rows::ROWS;
use crate::walk::Walk;
use crate::want::{Place, Want};
use crate::wording::{say, say_around, say_number, say_short};
use policy_text_defs::{Flag, is, name_of};
use std::alloc::{AllocError, Global};
use std::net::Ipv6Addr;
use std::str;
use text_core::{MAX, TokenKind};

/// The most bytes of a name.
const MOST_NAME: usize = 64;

/// Returns whether bytes are a number.
fn is_number(bytes: &[u8]) -> bool {
    !bytes.is_empty() && bytes.iter().all(|byte| byte.is_ascii_digit())
}

/// Appends a token as far as it can be shown: a number as it is, and another one in quotes.
pub fn say_quoted(into: &mut Vec<u8>, bytes: &[u8]) -> Result<(), AllocError> {
    match (str::from_utf8(bytes), bytes) {
        (Ok(text), _) if is_number(bytes) => say_short(into, text),
        (Ok(text), [b'!'..=b'~', ..]) => {
            say(into, "`")?;
            say_short(into, text)?;
            say(into, "`")
        }
        (_, [byte, ..]) => say_byte(into, *byte),
        (_, []) => say(into, "the end of the line"),
    }
}

/// The digits of base 16.
const DIGITS: &[u8; 16] = b"0123456789ABCDEF";

/// Returns a digit of base 16.
fn digit(number: u8) -> u8 {
    match DIGITS.get(usize::from(number)) {
        Some(digit) => *digit,
        None => b'?',
    }
}

/// Appends a byte by its value.
pub fn say_byte(into: &mut Vec<u8>, byte: u8) -> Result<(), AllocError> {
    say(into, "the byte 0x")?;
    into.push(digit(byte / 16))?;
    into.push(digit(byte % 16))?;
    Ok(())
}

/// Appends what a message calls a wanted token; numbers with their range.
fn say_want(
    into: &mut Vec<u8>,
    walk: &Walk,
    want: Want,
    is_number: bool,
) -> Result<(), AllocError> {
    let Some(what) = want.described() else {
        return say_around(into, "`", want.label(), "`");
    };
    if let Want::Name(_) = want {
        say(into, "the name of ")?;
    }
    say(into, what)?;
    let (least, most) = walk.range(want);
    if !want.is_number() || (least == 0 && most == MAX && !is_number) {
        return Ok(());
    }
    say(into, " from ")?;
    say_number(into, least)?;
    say(into, " to ")?;
    say_number(into, most)
}

/// Returns what a place wants, each kind of token once.
fn wants_of(alloc: Global, walk: &Walk) -> Result<Vec<Want>, AllocError> {
    let mut found: Vec<Want> = Vec::new(alloc);
    for (place, want, _) in &ROWS {
        let is_new = match found.last() {
            Some(last) => last.label() != want.label(),
            None => true,
        };
        if *place == walk.place() && walk.offers(*want) && is_new {
            found.push(*want)?;
        }
    }
    Ok(found)
}

/// Appends what a place wants.
fn say_wants(
    into: &mut Vec<u8>,
    walk: &Walk,
    wants: &[Want],
    is_number: bool,
) -> Result<(), AllocError> {
    for (place, want) in wants.iter().enumerate() {
        let is_last = place.saturating_add(1) == wants.len();
        say(
            into,
            match place {
                0 => "",
                _ if is_last => " or ",
                _ => ", ",
            },
        )?;
        say_want(into, walk, *want, is_number)?;
    }
    Ok(())
}

/// The TCP flags.
const FLAGS: [&str; 8] = ["fin", "syn", "rst", "psh", "ack", "urg", "ece", "cwr"];

/// Returns the texts that a place wants.
fn texts_of(alloc: Global, walk: &Walk) -> Result<Vec<&'static str>, AllocError> {
    let mut found = Vec::new(alloc);
    for (place, want, _) in &ROWS {
        if *place == walk.place() && walk.offers(*want) {
            match want {
                Want::Flag => found.extend_from_slice(&FLAGS)?,
                _ => {
                    if let Some(text) = want.text() {
                        found.push(text)?;
                    }
                }
            }
        }
    }
    Ok(found)
}

/// The message for what only version 3 has.
const LATER: &str = "version 3 has it: write `policy 3` first";

/// Returns why the place doesn't take a token that it wants after other tokens.
fn why_not(walk: &Walk, want: Want) -> Option<&'static str> {
    if want.is_later() && !walk.is_third() {
        return Some(LATER);
    }
    if let Some(why) = walk.bar() {
        return Some(why);
    }
    match want {
        Want::Attribute(_) => Some("each attribute is written once"),
        Want::Limit if walk.is_third() => Some("each limit is written once"),
        Want::Limit => Some(LATER),
        Want::Unit(_) => Some("each limit is written once, with one unit after its number"),
        Want::Flow => Some("`flow by` is written once"),
        Want::Not => Some("`not` is written once before a condition"),
        Want::NoFlags => Some("each flag of the value is also in the mask"),
        Want::Relation(_) => Some("put one of the comparisons into parentheses"),
        Want::Open(_) => Some("at most 64 parentheses may be open at once"),
        Want::Comma => Some("no further argument may follow"),
        Want::Close if walk.is_inside() => Some("the function has another argument"),
        Want::Close => Some("no parenthesis is open"),
        _ => None,
    }
}

/// Returns why a token is refused that the place takes after other tokens.
fn blocked(walk: &Walk, bytes: &[u8]) -> Option<&'static str> {
    for (place, want, _) in &ROWS {
        if *place == walk.place() && !walk.offers(*want) && is(bytes, want.text().unwrap_or("")) {
            return why_not(walk, *want);
        }
    }
    None
}

/// Returns why bytes are not a name.
fn no_name(walk: &Walk, bytes: &[u8]) -> Option<&'static str> {
    match bytes {
        [b'0'..=b'9', ..] => Some("a name begins with a letter or `_`"),
        [b'a'..=b'z' | b'A'..=b'Z' | b'_', ..] if MOST_NAME < bytes.len() => {
            Some("a name has at most 64 bytes")
        }
        [b'a'..=b'z' | b'A'..=b'Z' | b'_', .., b'-'] => Some("the last byte of a name isn't `-`"),
        [b'a'..=b'z' | b'A'..=b'Z' | b'_', ..] if bytes.contains(&b':') => {
            Some("a name has only letters, digits, `_` and `-`")
        }
        [b'a'..=b'z' | b'A'..=b'Z' | b'_', ..] if name_of(bytes).is_some() => {
            Some("that word is reserved in version 3")
        }
        [b'a'..=b'z' | b'A'..=b'Z' | b'_', ..] => Some("that word is reserved"),
        _ => None,
    }
}

/// Returns whether a break is in a name that has another byte in it.
fn is_in_name(line: &[u8], broken: &Break) -> bool {
    let before = part(line, 0, broken.start);
    let is_joined = matches!(before, [.., last] if *last != b' ' && *last != b'\t');
    is_joined && broken.walk.is_named() && broken.start < broken.end
}

/// Returns why a name can't have the first byte of a break in it.
fn no_name_byte(walk: &Walk, bytes: &[u8]) -> &'static str {
    match bytes {
        _ if walk.is_third() => "a name has only letters, digits, `_` and `-`",
        [b'-', ..] => "a name has only letters, digits and `_`, and in version 3 `-`",
        _ => "a name has only letters, digits and `_`",
    }
}

/// Returns why digits and `-` in one word are no number, if a number is wanted.
fn no_number(walk: &Walk, bytes: &[u8], wants: &[Want]) -> Option<&'static str> {
    if !matches!(bytes, [b'0'..=b'9', ..]) || !bytes.contains(&b'-') {
        return None;
    }
    if walk.place() == Place::Operand {
        return Some("a difference has spaces around `-`");
    }
    if wants
        .iter()
        .any(|want| matches!(want, Want::Low | Want::High))
    {
        return Some("a range has `..` between its ends");
    }
    None
}

/// Returns whether a version before 3 ends in an IPv6 address.
fn is_long_address(line: &[u8], broken: &Break) -> bool {
    let walk = &broken.walk;
    let is_address = walk.place() == Place::FirstOctet || walk.place() == Place::FirstDot;
    !walk.is_third() && is_address && Ipv6Addr::parse_ascii(run_at(line, broken.start)).is_ok()
}

/// Returns why the line breaks at a token, if the token says it.
fn reason(line: &[u8], broken: &Break, wants: &[Want]) -> Option<&'static str> {
    let walk = &broken.walk;
    let bytes = part(line, broken.start, broken.end);
    if let Some(why) = blocked(walk, bytes) {
        return Some(why);
    }
    if is_long_address(line, broken) {
        return Some(LATER);
    }
    if is_in_name(line, broken) {
        return Some(no_name_byte(walk, bytes));
    }
    if let Some(why) = no_number(walk, bytes, wants) {
        return Some(why);
    }
    if Flag::of(bytes).is_some() && wants.iter().any(|want| matches!(want, Want::Flag)) {
        return Some("each flag is written once");
    }
    if wants.iter().any(|want| want.is_name()) && !walk.is_name(bytes) {
        return no_name(walk, bytes);
    }
    None
}

/// Returns a word in small letters.
fn in_small(alloc: Global, bytes: &[u8]) -> Result<Vec<u8>, AllocError> {
    let mut small = Vec::new(alloc);
    for byte in bytes {
        small.push(byte.to_ascii_lowercase())?;
    }
    Ok(small)
}

/// Appends the nearest of the texts that a place wants to a word, if one is near.
fn say_near(
    alloc: Global,
    into: &mut Vec<u8>,
    walk: &Walk,
    bytes: &[u8],
) -> Result<(), AllocError> {
    if !matches!(bytes, [b'a'..=b'z' | b'A'..=b'Z', _, ..]) || MOST_NAME < bytes.len() {
        return Ok(());
    }
    let small = in_small(alloc, bytes)?;
    let texts = texts_of(alloc, walk)?;
    say_nearest(alloc, into, &small, &texts)
}

/// Appends what was expected where a line breaks, and what was found.
pub fn say_break(
    alloc: Global,
    into: &mut Vec<u8>,
    line: &[u8],
    broken: &Break,
) -> Result<(), AllocError> {
    let bytes = part(line, broken.start, broken.end);
    let wants = wants_of(alloc, &broken.walk)?;
    say(into, "expected ")?;
    say_wants(
        into,
        &broken.walk,
        &wants,
        matches!(bytes, [b'0'..=b'9', ..]),
    )?;
    say(into, ", found ")?;
    say_quoted(into, bytes)?;
    match reason(line, broken, &wants) {
        Some(why) => say_around(into, "; ", why, ""),
        None => say_near(alloc, into, &broken.walk, bytes),
    }
}
