//! Building message texts.
use std::alloc::{AllocError, Global};
use text_core::put_decimal;

/// Appends a text. Fails if out of memory.
pub fn say(into: &mut Vec<u8>, text: &str) -> Result<(), AllocError> {
    into.extend_from_slice(text.as_bytes())
}

/// The most bytes of an argument that a message repeats.
const MOST_SHOWN: usize = 160;

/// Appends an argument, cut after `MOST_SHOWN` bytes to keep the message short.
pub fn say_short(into: &mut Vec<u8>, word: &str) -> Result<(), AllocError> {
    let bytes = word.as_bytes();
    let shown = bytes.len().min(MOST_SHOWN);
    into.extend_from_slice(&bytes[..shown])?;
    say(into, if shown < bytes.len() { ".." } else { "" })
}

/// Appends a text between two others.
pub fn say_around(
    into: &mut Vec<u8>,
    before: &str,
    text: &str,
    after: &str,
) -> Result<(), AllocError> {
    say(into, before)?;
    say(into, text)?;
    say(into, after)
}

/// Appends a number in decimal.
pub fn say_number(into: &mut Vec<u8>, number: u64) -> Result<(), AllocError> {
    put_decimal(into, u128::from(number))
}

/// Appends a number in decimal, with commas between its thousands.
pub fn say_thousands(alloc: Global, into: &mut Vec<u8>, number: u64) -> Result<(), AllocError> {
    let mut digits = Vec::new(alloc);
    put_decimal(&mut digits, u128::from(number))?;
    for place in 0..digits.len() {
        if place != 0 && (digits.len() - place) % 3 == 0 {
            into.push(b',')?;
        }
        into.push(digits[place])?;
    }
    Ok(())
}

/// Appends the names, with a space before each.
pub fn say_names(into: &mut Vec<u8>, names: &[&str]) -> Result<(), AllocError> {
    for name in names {
        say_around(into, " ", name, "")?;
    }
    Ok(())
}
