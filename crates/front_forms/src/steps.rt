//! Scripts whose lines count too many packets.
use crate::detail::{Detail, Error};
use crate::rules::at_word;
use crate::wording::{say, say_thousands};
use crate::words::{Entry, entries};
use policy_text_defs::Edition;
use std::alloc::{AllocError, Global};
use text_core::decimal;

/// Returns how many packets a line counts.
fn count_of(text: &[u8], entry: &Entry) -> u64 {
    match entry.bytes(text, 0) {
        b"a" | b"d" => decimal(entry.bytes(text, 1)).unwrap_or(1),
        _ => 0,
    }
}

/// Returns the line of a script up to which too many packets are counted.
pub fn count_detail(alloc: Global, error: Error<'_>) -> Result<Option<Detail>, AllocError> {
    let entries = entries(alloc, error.text, Edition::Classic)?;
    let mut sum: u64 = 0;
    for entry in entries.as_slice() {
        sum = sum.saturating_add(count_of(error.text, entry));
        if entry.line == error.line {
            let mut message = Vec::new(alloc);
            say(
                &mut message,
                "expected `a` and `d` to count at most 4,194,304, found ",
            )?;
            say_thousands(alloc, &mut message, sum)?;
            say(&mut message, " up to this line")?;
            let place = entry.words.len().saturating_sub(1).min(1);
            return Ok(Some(at_word(entry, entry.word(place), message)));
        }
    }
    Ok(None)
}
