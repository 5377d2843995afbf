//! The last bytes of an output, and the error that a JSON line at its end says.
ghost use Rattle.std.specs.Prelude.{◌≤◌, length};

use front_core::{Fault, fault_in};
use std::alloc::Global;
use std::str;

/// The bytes that are kept: more than the JSON line of an error has.
const MOST_KEPT: usize = 128;

/// The last bytes of an output. Zeros are before its first byte.
#[derive(Drop)]
pub struct Tail {
    bytes: [u8; MOST_KEPT],
}

impl Tail {
    pub fn new() -> Tail {
        Tail {
            bytes: [0; MOST_KEPT],
        }
    }

    /// Adds bytes that were written.
    pub fn note(&mut self, piece: &[u8]) {
        let count = piece.len().min(MOST_KEPT);
        self.bytes.copy_within(count.., 0);
        self.bytes[MOST_KEPT - count..].copy_from_slice(&piece[piece.len() - count..]);
    }

    /// Returns the error that the last line says, if it is a JSON line of an error. Returns none if
    /// out of memory.
    pub fn fault(&self, alloc: Global) -> Option<Fault> {
        let (last, before) = self.bytes.split_last()?;
        if *last != b'\n' {
            return None;
        }
        let (_, line) = before.split_at(line_start(before));
        fault_in_json(alloc, str::from_utf8(line).ok()?)
    }
}

/// Returns the index of the first byte of the last line.
fn line_start(bytes: &[u8]) -> usize
    ensures { result ≤ length bytes.now }
{
    let mut at = 0;
    for index in 0..bytes.len() {
        if bytes[index] == b'\n' || bytes[index] == 0 {
            at = index + 1;
        }
    }
    at.min(bytes.len())
}

/// Parses the JSON line of an error, as event_json writes it: its kind, its code and its position.
fn fault_in_json(alloc: Global, line: &str) -> Option<Fault> {
    let rest = line.strip_prefix("{\"kind\":\"fault\",\"input\":\"")?;
    let (kind, rest) = rest.split_once("\",\"code\":")?;
    let (code, _) = rest.split_once(',')?;
    let (_, position) = rest.strip_suffix("}")?.rsplit_once(':')?;
    let line = format!(in alloc; "fault {kind} {code} {position}").ok()?;
    fault_in(alloc, line.as_bytes())
}
