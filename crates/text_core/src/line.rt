//! The ends of lines, and the statement bytes of each line.
ghost use Rattle.std.specs.Prelude.{◌≡◌, ◌<◌, ◌≤◌, [], ◌∷◌, length, map, IfOk, IsTrue};
ghost use Rattle.std.specs.List.{prefix_len, list_all, All};
ghost use Rattle.text_core.specs.Lines.{is_text, is_clean, no_comment, ends_with_return, statement_length, AreLines, line_text, statements_of, IsMarked, LiesIn, Follow};

use list_core::List;
use std::alloc::{AllocError, Global};

/// The span of a line's statement bytes, and whether each of them is allowed.
#[derive(Clone, Copy, Debug, PartialEq, Eq)]
pub struct Line {
    pub start: usize,
    pub end: usize,
    pub clean: bool,
}

/// Returns the number of bytes before the end of the first line.
fn line_length(bytes: &[u8]) -> usize
    ensures count { result ≡ prefix_len is_text bytes.now }
    ensures within { result ≤ length bytes.now }
{
    bytes.iter().take_while(|byte| **byte != b'\n').count()
}

fn is_clean(bytes: &[u8]) -> bool
    ensures { result ≡ list_all is_clean bytes.now }
{
    bytes
        .iter()
        .all(|byte| matches!(*byte, b'\t' | b' '..=b'~'))
}

/// Returns the number of bytes before the comment; without a comment, the length of the line.
fn before_comment(line: &[u8]) -> usize
    ensures count { result ≡ prefix_len no_comment line.now }
    ensures within { result ≤ length line.now }
{
    line.iter().take_while(|byte| **byte != b'#').count()
}

fn ends_with_return(line: &[u8]) -> bool
    ensures value { result ≡ ends_with_return line.now }
    ensures some { IsTrue result → 0 < length line.now }
{
    match line {
        [.., last] => *last == b'\r',
        [] => false,
    }
}

/// Returns the number of statement bytes of a line.
fn statement_length(line: &[u8]) -> usize
    ensures count { result ≡ statement_length line.now }
    ensures within { result ≤ length line.now }
{
    let before = before_comment(line);
    if before == line.len() && ends_with_return(line) {
        before - 1
    } else {
        before
    }
}

/// Returns the line that begins at an offset of a text, and the offset at which the next one would
/// begin.
pub fn line_from(text: &[u8], at: usize) -> (Line, usize)
    requires { at < length text.now }
    ensures line { Follow text.now at (result.0 ∷ []) result.1 }
    ensures clean { IsMarked text.now result.0 }
    ensures within { LiesIn text.now result.0 }
    ensures later { at < result.1 }
{
    let length = line_length(&text[at..]);
    let line = &text[at..at + length];
    let end = statement_length(line);
    let found = Line {
        start: at,
        end: at + end,
        clean: is_clean(&line[..end]),
    };
    (found, at + length + 1)
}

/// Returns the lines of a text.
pub fn lines(alloc: Global, text: &[u8]) -> Result<List<Line>, AllocError>
    ensures spans { IfOk result (λ ls. AreLines text.now ls) }
    ensures texts { IfOk result (λ ls. map (line_text text.now) ls ≡ statements_of text.now) }
    ensures clean { IfOk result (λ ls. All (IsMarked text.now) ls) }
    ensures within { IfOk result (λ ls. All (LiesIn text.now) ls) }
    ensures count { IfOk result (λ ls. length ls ≤ length text.now) }
{
    let mut found = List::from_vec(Vec::new(alloc));
    let mut at = 0;
    while at < text.len() {
        let (line, next) = line_from(text, at);
        found.push(line)?;
        at = next;
    }
    Ok(found)
}
