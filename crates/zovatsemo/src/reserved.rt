//! The message for a word that a policy has as a name and version 3 reserves.
use front_core::{Fault, name_shown, say_at_line};
use front_forms::{say, say_around, say_number};
use policy_text_defs::Edition;
use std::alloc::{AllocError, Global};
use std::str;

/// Returns the message for an accepted policy that can't be written as one of version 3, since the
/// line has at this column, counted from 0, a word that version 3 reserves.
pub fn tell_reserved(
    alloc: Global,
    fault: Fault,
    name: &str,
    line: &[u8],
    column: usize,
    word: &[u8],
) -> Result<Vec<u8>, AllocError> {
    let word = str::from_utf8(word).unwrap_or("");
    let mut is = Vec::new(alloc);
    say_around(
        &mut is,
        "expected a name, found ",
        word,
        ", which version 3 reserves",
    )?;
    let mut text = Vec::new(alloc);
    say_around(&mut text, "", name_shown(name), ":")?;
    say_number(&mut text, fault.place)?;
    say(&mut text, ":")?;
    say_at_line(
        &mut text,
        fault,
        Edition::Classic,
        str::from_utf8(&is).unwrap_or(""),
        line,
        column,
    )?;
    say(&mut text, "  help: rename it wherever the policy has it\n")?;
    Ok(text)
}
