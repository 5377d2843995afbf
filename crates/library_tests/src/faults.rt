//! Runs of each command over a shelf and a sink whose calls fail in turn. The shelf returns, and
//! the sink takes, only a few bytes at a time.
use crate::files::{CAPTURE, POLICY, arguments, files};
use fabric_core::FlatFabric;
use outside_core::{MemShelf, MemSink};
use replay_app::run;
use std::alloc::Global;
use std::process::Abort;
use std::test::Fail;
use tap_core::{BytesTap, Tap};

/// A command with its arguments, and the text that it writes if no call fails.
#[derive(Clone, Copy)]
struct Row {
    arguments: &'static [&'static str],
    text: &'static [u8],
}

const REPORT: &[u8] = b"a 1 1 root 0\na 2 2 root 0\nd 3 1 root 0\nd 4 2 root 0\n\
    end pushed 2 popped 2 empty 0 held 0 unsent 0\n";

/// The departures of the two packets, as a capture in nanoseconds. They are one microsecond apart.
const DEPARTURES: &[u8] = b"\x4d\x3c\xb2\xa1\x02\0\x04\0\0\0\0\0\0\0\0\0\0\0\x04\0\x93\0\0\0\
    \x01\0\0\0\0\0\0\0\x04\0\0\0\x04\0\0\0\0\0\0\x01\
    \x01\0\0\0\xe8\x03\0\0\x04\0\0\0\x04\0\0\0\0\0\0\x02";

const ROWS: [Row; 8] = [
    Row {
        arguments: &["check", "p"],
        text: POLICY,
    },
    Row {
        arguments: &["plan", "p", "t"],
        text: b"least 0\nmap root - -\n",
    },
    Row {
        arguments: &["direct", "p", "c", "e"],
        text: REPORT,
    },
    Row {
        arguments: &["replay", "p", "t", "c", "e", "tap", "bytes"],
        text: b"a 1 1 root 0\na 2 2 root 0\nd 3 1 root 0\nd 4 2 root 0\n\
            end pushed 2 popped 2 empty 0 held 0 unsent 0\ntap bytes 2 8\n",
    },
    Row {
        arguments: &["via", "p", "g", "m", "t", "c", "e"],
        text: REPORT,
    },
    Row {
        arguments: &["link", "p", "t", "c", "1000000000000"],
        text: b"a 1 1 root 0\nd 2 1 root 0 1000000000\na 3 2 root 0\nd 4 2 root 0 1000001000\n\
            end pushed 2 popped 2 empty 0 held 0 unsent 0\n",
    },
    Row {
        arguments: &["forward", "p", "t", "c", "1000000000"],
        text: DEPARTURES,
    },
    Row {
        arguments: &["soak", "0", "1"],
        text: b"soak pushed 1 popped 1 empty 0 sum 1\n",
    },
];

/// Returns the status of a command over this shelf and this sink.
fn status_of(
    alloc: Global,
    arguments: &[String],
    shelf: &mut MemShelf,
    sink: &mut MemSink,
) -> Result<u8, Fail> {
    let mut fabric = FlatFabric::new(alloc)?;
    let mut taps: Vec<Box<dyn Tap>> = Vec::new(alloc);
    taps.push(Box::new(alloc, BytesTap::new())?)?;
    Ok(run(alloc, arguments, shelf, sink, &mut fabric, &mut taps))
}

/// Runs a row, and returns its status and the text written. The call of the shelf with number
/// `read` and that of the sink with number `write` fail. At most seven bytes are read at a time,
/// and five written.
fn answer_to(alloc: Global, row: &Row, read: u64, write: u64) -> Result<(u8, Vec<u8>), Fail> {
    let list = arguments(alloc, row.arguments, &[])?;
    let held = files(alloc, POLICY, CAPTURE, b"rest\ndrain\n")?;
    let mut shelf = MemShelf::new(held, 7, vec![in alloc; read]?);
    let mut sink = MemSink::new(alloc, 300, 5, vec![in alloc; write]?)?;
    let status = status_of(alloc, &list, &mut shelf, &mut sink)?;
    Ok((status, sink.bytes().to_vec(alloc)?))
}

/// Checks that an answer is the whole text, or a prefix of it with the status `fault`. Returns
/// whether it is whole.
fn is_whole<R: Abort>(rt: &R, row: &Row, answer: &(u8, Vec<u8>), fault: u8) -> bool {
    let (status, written) = answer;
    let whole = *status == 0;
    assert!(rt; whole || *status == fault, "status {status}");
    assert!(rt; row.text.starts_with(written));
    assert_eq!(rt; written.len() == row.text.len(), whole);
    whole
}

#[test]
fn each_call_of_the_shelf_fails(rt: HostRuntime) -> Result<(), Fail> {
    let alloc = rt.alloc();
    for row in &ROWS {
        let mut met_none = false;
        for call in 1..=50 {
            let answer = answer_to(alloc, row, call, 0)?;
            let whole = is_whole(&rt, row, &answer, 8);
            // Once a run meets no failing call, later runs don't either.
            assert!(rt; whole || !met_none);
            met_none = whole;
        }
        assert!(rt; met_none);
    }
    Ok(())
}

#[test]
fn each_call_of_the_sink_fails(rt: HostRuntime) -> Result<(), Fail> {
    let alloc = rt.alloc();
    for row in &ROWS {
        let mut met_none = false;
        for call in 1..=40 {
            let answer = answer_to(alloc, row, 0, call)?;
            let whole = is_whole(&rt, row, &answer, 9);
            assert!(rt; whole || !met_none);
            met_none = whole;
        }
        assert!(rt; met_none);
    }
    Ok(())
}
