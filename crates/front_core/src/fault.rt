//! Parsing of the `fault` line.
use report_core::FaultKind;
use std::alloc::Global;
use text_core::{Item, items};

/// An error that the replayer reports: its kind, its code, and its position in the input.
#[derive(Clone, Copy, PartialEq, Eq, Debug)]
pub struct Fault {
    pub kind: FaultKind,
    pub code: u64,
    pub place: u64,
}

/// Returns the kind of error with this name.
fn kind_named(word: &[u8]) -> Option<FaultKind> {
    Some(match word {
        b"words" => FaultKind::Words,
        b"policy" => FaultKind::Policy,
        b"target" => FaultKind::Target,
        b"size" => FaultKind::Size,
        b"script" => FaultKind::Script,
        b"capture" => FaultKind::Capture,
        b"tree" => FaultKind::Tree,
        b"map" => FaultKind::Map,
        _ => return None,
    })
}

/// Parses a `fault` line without its line end. Returns none if it doesn't parse, or if out of
/// memory.
pub fn fault_in(alloc: Global, line: &[u8]) -> Option<Fault> {
    let items = items(alloc, line).ok()?;
    match items.as_slice() {
        [
            Item::Word(_),
            Item::Word(kind),
            Item::Number(code),
            Item::Number(place),
        ] => Some(Fault {
            kind: kind_named(kind)?,
            code: *code,
            place: *place,
        }),
        _ => None,
    }
}
