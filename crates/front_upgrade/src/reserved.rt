//! The words that a line has as names and version 3 reserves.
ghost use Rattle.std.specs.Prelude.{◌≡◌, ◌≤◌, IfSome, false, length};
ghost use Rattle.policy_text_defs.specs.declared.edition.Edition.TheVariants.{Third};
ghost use Rattle.policy_text_defs.specs.Words.{has_name};

use policy_text_defs::{Edition, has_name};

/// Returns whether a byte is a letter, a digit or `_`.
fn is_of_word(byte: u8) -> bool {
    byte.is_ascii_alphanumeric() || byte == b'_'
}

/// Returns the number of bytes before a comment.
fn statement_length(line: &[u8]) -> usize
    ensures { result ≤ length line.now }
{
    line.iter().take_while(|byte| **byte != b'#').count()
}

/// Returns the number of bytes before the first word.
fn gap_length(bytes: &[u8]) -> usize
    ensures { result ≤ length bytes.now }
{
    bytes.iter().take_while(|byte| !is_of_word(**byte)).count()
}

/// Returns the number of bytes of the word at the start.
fn word_length(bytes: &[u8]) -> usize
    ensures { result ≤ length bytes.now }
{
    bytes.iter().take_while(|byte| is_of_word(**byte)).count()
}

/// Returns the first word of a line that only version 3 reserves, and the index of its first byte.
pub fn reserved_in(line: &[u8]) -> Option<(usize, &[u8])>
    ensures word { IfSome result (λ found. has_name Third found.1.now ≡ false) }
{
    let (mut rest, _) = line.split_at(statement_length(line));
    let mut at: usize = 0;
    for _ in 0..line.len() {
        let gap = gap_length(rest);
        let (_, begun) = rest.split_at(gap);
        let (word, more) = begun.split_at(word_length(begun));
        at = at.saturating_add(gap);
        if !has_name(Edition::Third, word) {
            return Some((at, word));
        }
        at = at.saturating_add(word.len());
        rest = more;
    }
    None
}
