//! Policy texts of version 3.
use crate::files::{arguments, files};
use fabric_core::FlatFabric;
use outside_core::{MemShelf, MemSink};
use policy_text::{Edition, parse_to};
use replay_app::run_to;
use std::alloc::Global;
use std::test::Fail;
use tap_core::Tap;

/// Returns the number of statements, or the code and the line number of the error.
fn read(alloc: Global, text: &[u8], latest: Edition) -> (usize, u32, u32) {
    match parse_to(alloc, text, latest) {
        Ok(lines) => (lines.entries().len(), 0, 0),
        Err(fault) => (0, fault.code(), fault.line()),
    }
}

/// Only the first statement chooses version 3, and only for a reader of the third edition.
#[test]
fn the_first_statement_chooses_the_edition(rt: HostRuntime) -> Result<(), Fail> {
    let table: [(&[u8], Edition, (usize, u32, u32)); 9] = [
        (b"policy 3\ntransaction t\n", Edition::Third, (2, 0, 0)),
        (b"policy 3\ntransaction t\n", Edition::Classic, (0, 23, 1)),
        (b"\n \npolicy 3\npolicy 3\n", Edition::Third, (2, 0, 0)),
        (b"policy 1\npolicy 3\n", Edition::Third, (0, 23, 2)),
        (b"policy 2\n\npolicy 3\n", Edition::Third, (0, 23, 3)),
        (b"policy 2\n\npolicy 2\n", Edition::Third, (2, 0, 0)),
        (b"transaction t\npolicy 3\n", Edition::Third, (0, 23, 2)),
        (b"policy 4\n", Edition::Third, (0, 23, 1)),
        (b"policy 3\nshape\n", Edition::Third, (0, 24, 2)),
    ];
    for (text, latest, want) in table {
        assert_eq!(rt; read(rt.alloc(), text, latest), want);
    }
    Ok(())
}

/// Names with `-` and the words `flow` and `any`, in the third edition and in the classic one.
#[test]
fn names_are_those_of_the_edition(rt: HostRuntime) -> Result<(), Fail> {
    let table: [(&[u8], (usize, u32, u32)); 15] = [
        (b"policy 3\ntransaction a-b\n", (2, 0, 0)),
        (b"policy 2\ntransaction a-b\n", (0, 23, 2)),
        (b"transaction a-b\n", (0, 23, 1)),
        (b"policy 3\ntransaction a-\n", (0, 23, 2)),
        (b"policy 3\ntransaction a:b\n", (0, 23, 2)),
        (b"policy 3\ntransaction 1a\n", (0, 23, 2)),
        (b"policy 3\ntransaction flow\n", (0, 23, 2)),
        (b"policy 2\ntransaction flow\n", (2, 0, 0)),
        (b"transaction any\n", (1, 0, 0)),
        (b"policy 3\npush rank = 2-1\n", (0, 23, 2)),
        (b"policy 3\npush rank = 2 - 1\n", (2, 0, 0)),
        (b"policy 3\npush rank = len-1\n", (2, 0, 0)),
        (b"policy 2\npush rank = 2-1\n", (2, 0, 0)),
        (b"policy 3\npush rank = min(per, 1)\n", (0, 23, 2)),
        (
            b"policy 3\nleaf a using fifo classes a by-b any\n",
            (0, 23, 2),
        ),
    ];
    for (text, want) in table {
        assert_eq!(rt; read(rt.alloc(), text, Edition::Third), want);
    }
    Ok(())
}

/// Returns the status of `check` for a policy text, and whether it writes this text.
fn checks(alloc: Global, latest: Edition, text: &[u8], writes: &[u8]) -> Result<(u8, bool), Fail> {
    let list = arguments(alloc, &["check", "p"], &[])?;
    let mut shelf = MemShelf::new(files(alloc, text, b"", b"")?, 64, Vec::new(alloc));
    let mut sink = MemSink::new(alloc, 300, 64, Vec::new(alloc))?;
    let mut fabric = FlatFabric::new(alloc)?;
    let mut taps: Vec<Box<dyn Tap>> = Vec::new(alloc);
    let status = run_to(
        alloc,
        latest,
        &list,
        &mut shelf,
        &mut sink,
        &mut fabric,
        &mut taps,
    );
    Ok((status, sink.bytes() == writes))
}

/// A command reads version 3 only for a caller that wants the third edition, and prints it so.
#[test]
fn a_command_reads_up_to_an_edition(rt: HostRuntime) -> Result<(), Fail> {
    let (alloc, third) = (rt.alloc(), Edition::Third);
    let text = b"policy 3\nclass all\nleaf root using fifo classes all\n";
    let spaced = b"policy 03\n\nclass  all\nleaf root using fifo classes all";
    assert_eq!(rt; checks(alloc, third, text, text)?, (0, true));
    assert_eq!(rt; checks(alloc, third, spaced, text)?, (0, true));
    let fault = b"fault policy 23 1\n";
    assert_eq!(rt; checks(alloc, Edition::Classic, text, fault)?, (3, true));
    Ok(())
}
