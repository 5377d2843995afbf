//! Names that are similar to a word.
use crate::wording::say_around;
use std::alloc::{AllocError, Global};
use std::str;
use strsim::levenshtein;

/// The most edits between a word and a similar name.
const MOST_EDITS: usize = 2;

/// The most bytes of a word for which similar names are searched.
const MOST_BYTES: usize = 64;

/// The most names that are compared with a word.
const MOST_NAMES: usize = 2048;

/// Returns the first of the names with the fewest edits, if at most `MOST_EDITS` are needed, and at
/// most one for each two bytes of the word. Fails if out of memory.
pub fn nearest<'a>(
    alloc: Global,
    word: &str,
    names: &[&'a str],
) -> Result<Option<&'a str>, AllocError> {
    let mut found = None;
    if word.len() > MOST_BYTES {
        return Ok(found);
    }
    let mut least = MOST_EDITS + 1;
    for name in names.iter().take(MOST_NAMES) {
        let edits = levenshtein(alloc, word, name)?;
        if edits < least && edits.saturating_mul(2) <= word.len() {
            least = edits;
            found = Some(*name);
        }
    }
    Ok(found)
}

/// Appends the name that is nearest to a word, if one is near. Fails if out of memory.
pub fn say_nearest(
    alloc: Global,
    into: &mut Vec<u8>,
    word: &[u8],
    names: &[&str],
) -> Result<(), AllocError> {
    match nearest(alloc, str::from_utf8(word).unwrap_or(""), names)? {
        Some(name) => say_around(into, "; did you mean `", name, "`?"),
        None => Ok(()),
    }
}
