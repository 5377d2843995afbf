//! Messages with one more line, from a second reading of the input files.
ghost use Rattle.std.specs.Prelude.{◌≤◌, length};

use crate::fault::Fault;
use crate::files::name_shown;
use crate::tell::{tell_fault, tell_status};
use front_defs::Command;
use front_warnings::{Counts, Found, damage_text, link_name};
use report_core::FaultKind;
use std::alloc::{AllocError, Global};

/// Returns the number of bytes before the last line.
fn before_last_line(text: &[u8]) -> usize
    ensures { result ≤ length text.now }
{
    let mut at = text.len();
    for place in 0..text.len() {
        if place + 1 < text.len() && text[place] == b'\n' {
            at = place + 1;
        }
    }
    at.min(text.len())
}

/// Inserts a detail before the last line of a message, which is its help. Fails if out of memory.
pub fn with_detail(alloc: Global, text: &[u8], detail: &str) -> Result<Vec<u8>, AllocError> {
    let (before, last) = text.split_at(before_last_line(text));
    let mut whole = Vec::new(alloc);
    whole.extend_from_slice(before)?;
    whole.extend_from_slice(detail.as_bytes())?;
    whole.extend_from_slice(last)?;
    Ok(whole)
}

/// Returns the message for an error that a second reading found in the capture of this name. Fails
/// if out of memory.
pub fn tell_found(alloc: Global, found: Found, name: &str) -> Result<Vec<u8>, AllocError> {
    let fault = Fault {
        kind: FaultKind::Capture,
        code: found.damage.code(),
        place: found.number,
    };
    let text = tell_fault(alloc, fault, name, None, b"")?;
    with_detail(alloc, &text, &damage_text(alloc, found)?)
}

/// Returns what a second reading of the capture of this name says about an exit status of
/// `forward`, as a line of a message. Fails if out of memory.
fn status_detail(
    alloc: Global,
    status: u8,
    name: &str,
    counts: &Counts<'_>,
) -> Result<String, AllocError> {
    let name = name_shown(name);
    match (status, counts.latest, counts.link, counts.other_link) {
        (14, Some((number, seconds)), _, _) => {
            format!(in alloc;
                "  the latest timestamp in {name} is {seconds} seconds, of packet {number}\n"
            )
        }
        (15, _, Some(link), Some((number, other))) => {
            let (first, second) = (link_name(link), link_name(other));
            format!(in alloc;
                "  in {name}, packet 1 has link type {link} ({first}), and packet {number} has {other} ({second})\n"
            )
        }
        _ => Ok(String::new(alloc)),
    }
}

/// Returns the message for an exit status that comes without a `fault` line, with what a second
/// reading of the capture of this name says about it. Fails if out of memory.
pub fn tell_status_of(
    alloc: Global,
    command: Command,
    status: u8,
    name: &str,
    counts: &Counts<'_>,
) -> Result<Vec<u8>, AllocError> {
    let text = tell_status(alloc, command, status)?;
    with_detail(alloc, &text, &status_detail(alloc, status, name, counts)?)
}
