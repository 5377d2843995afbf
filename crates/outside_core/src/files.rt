//! Files stored by name, and how far the open one was read.
ghost use Rattle.std.specs.Prelude.{◌≡◌, Some, None, IfSome, IfNone, length, min, take, drop, position, string_bytes};
ghost use Rattle.std.specs.Str.{bytes_eq};
ghost use Rattle.outside_core.specs.Reading.{content_at};
ghost use Rattle.outside_core.specs.Stored.{files_of, first_content, content_or_empty};

/// How far a file was read: the index of the file (`place`) and the offset in bytes (`at`).
#[derive(Clone, Copy, Debug)]
pub struct Cursor {
    pub place: usize,
    pub at: usize,
}

/// Returns the index of the first file with this name, compared by names alone.
fn named_place(files: &[(String, Vec<u8>)], name: &str) -> Option<usize>
    ensures { result ≡ position (λ file. bytes_eq (string_bytes file.0) name.now) files.now }
{
    files.iter().position(|file| file.0.as_str() == name)
}

/// Returns the index of the first file with this name.
#[tactic(auto, using(crate::proofs::StoredLemmas::content_where_found, crate::proofs::StoredLemmas::no_content_where_not_found))]
pub fn place_of(files: &[(String, Vec<u8>)], name: &str) -> Option<usize>
    ensures found { IfSome result (λ place. first_content (files_of files.now) name.now ≡
        Some (content_at files.now place)) }
    ensures not_found { IfNone result (first_content (files_of files.now) name.now ≡ None) }
{
    named_place(files, name)
}

/// Returns the index of the first file with this name, or the index past the last file if there is
/// none.
#[tactic(auto, using(crate::proofs::StoredLemmas::content_at_place_or_end))]
pub fn place_or_end(files: &[(String, Vec<u8>)], name: &str) -> usize
    ensures { content_at files.now result ≡ content_or_empty (files_of files.now) name.now }
{
    place_of(files, name).unwrap_or(files.len())
}

/// Returns the content of the file at an index, from a byte offset on. Past the end it is empty.
pub fn content_from(files: &[(String, Vec<u8>)], place: usize, at: usize) -> &[u8]
    ensures { result.now ≡ drop at (content_at files.now place) }
{
    match files.get(place) {
        Some(file) if at < file.1.len() => &file.1.as_slice()[at..],
        _ => &[],
    }
}

/// Copies as many bytes as fit, and returns how many.
pub fn copy_front(from: &[u8], into: &mut [u8]) -> usize
    ensures count { result ≡ min (length from.now) (length into.old) }
    ensures copied { take result into.new ≡ take result from.now }
{
    let count = from.len().min(into.len());
    into[..count].copy_from_slice(&from[..count]);
    count
}
