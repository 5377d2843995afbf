//! Lines of a text, and words of a line.
ghost use Rattle.std.specs.Prelude.{◌≤◌, length};

/// Returns the number of bytes before the end of the first line.
fn line_length(bytes: &[u8]) -> usize
    ensures { result ≤ length bytes.now }
{
    bytes.iter().take_while(|byte| **byte != b'\n').count()
}

/// Returns the number of blanks (spaces and tabs) at the start of the bytes.
pub fn blanks(bytes: &[u8]) -> usize
    ensures { result ≤ length bytes.now }
{
    bytes
        .iter()
        .take_while(|byte| matches!(**byte, b' ' | b'\t'))
        .count()
}

/// Returns the number of bytes before a blank, a carriage return or a comment.
fn word_length(bytes: &[u8]) -> usize
    ensures { result ≤ length bytes.now }
{
    bytes
        .iter()
        .take_while(|byte| !matches!(**byte, b' ' | b'\t' | b'\r' | b'#'))
        .count()
}

/// Returns how many bytes at the start of a line can be shown: printable ASCII and tabs.
pub fn clean_length(line: &[u8]) -> usize
    ensures { result ≤ length line.now }
{
    line.iter()
        .take_while(|byte| matches!(**byte, b'\t' | b' '..=b'~'))
        .count()
}

/// Returns the first word of a line, and the bytes after it.
pub fn first_word(line: &[u8]) -> (&[u8], &[u8]) {
    let begun = &line[blanks(line)..];
    begun.split_at(word_length(begun))
}

/// Returns the first line without its line end, and the bytes after the line end, if there is one.
fn cut_line(text: &[u8]) -> (&[u8], Option<&[u8]>) {
    let (line, after) = text.split_at(line_length(text));
    match after {
        [_, more @ ..] => (line, Some(more)),
        [] => (line, None),
    }
}

/// Returns the line with this number, counted from 1, without its line end.
pub fn line_at(text: &[u8], number: u64) -> Option<&[u8]> {
    let mut rest = text;
    for _ in 1..number {
        rest = cut_line(rest).1?;
    }
    Some(cut_line(rest).0)
}
