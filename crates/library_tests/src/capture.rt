//! A link run through the policy's own tree of queues, which no command makes.
use crate::packets::{HEADER, RECORD, policy_of, shelf_of};
use outside_core::MemSink;
use sched_capture::{Ending, Stop, Task, direct};
use sched_defs::LinkRate;
use sched_run::Pace;
use std::test::Fail;

/// Two packets of four bytes arrive, and a link of 1 byte per second sends the first. The sink
/// takes `room` bytes, and the call of the shelf with number `fails` fails.
#[derive(Clone, Copy)]
struct Row {
    room: usize,
    fails: u64,
    answer: Result<Ending, Stop>,
    text: &'static [u8],
}

const ROWS: [Row; 3] = [
    Row {
        room: 300,
        fails: 0,
        answer: Ok(Ending::Whole(0)),
        text: b"a 1 1 root 0\na 2 2 root 0\nd 3 1 root 0 1000000000\nd 4 2 root 0 5000000000\n\
            end pushed 2 popped 2 empty 0 held 0 unsent 0\n",
    },
    Row {
        room: 39,
        fails: 0,
        answer: Err(Stop::Sink),
        text: b"a 1 1 root 0\na 2 2 root 0\nd 3 1 root 0 ",
    },
    Row {
        room: 300,
        fails: 2,
        answer: Err(Stop::Source),
        text: b"",
    },
];

#[test]
fn a_link_through_the_policys_own_tree(rt: HostRuntime) -> Result<(), Fail> {
    let alloc = rt.alloc();
    let policy = policy_of(
        alloc,
        b"policy 1\nclass all\nleaf root using fifo classes all\n",
    )?;
    let task = Task {
        pace: Pace::Link(LinkRate::plain(1)),
        capture: "c",
    };
    for row in ROWS {
        let mut shelf = shelf_of(alloc, &[HEADER, RECORD, RECORD], row.fails)?;
        let mut sink = MemSink::new(alloc, row.room, 64, Vec::new(alloc))?;
        let answer = direct(alloc, &policy, &task, &mut shelf, &mut sink);
        assert_eq!(rt; (answer, sink.bytes()), (row.answer, row.text));
    }
    Ok(())
}
