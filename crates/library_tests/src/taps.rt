//! Runs with other taps than the program's, and the taps that are left.
use crate::files::{CAPTURE, FULL, POLICY, arguments, files};
use fabric_core::FlatFabric;
use outside_core::{PlainShelf, PlainSink};
use packet_defs::Departed;
use replay_app::run;
use std::alloc::{AllocError, Global};
use std::test::Fail;
use tap_core::{BytesTap, Dropped, DropsTap, FirstTap, OrderTap, Seen, Tap, TapKind};

/// A tap that is defined outside `tap_core`. It works as `OrderTap` does, and counts how often it
/// is called.
#[derive(Drop)]
struct AskedTap {
    order: OrderTap,
    asked: u64,
}

impl Tap for AskedTap {
    ghost use Rattle.tap_core.specs.declared.kinds.TapKind.TheVariants.{Order};
    ghost use Rattle.tap_core.specs.Held.{order_state};

    ghost kind_of = { λ _. Order };

    ghost state_of = { λ t. order_state t.order };

    fn kind(&self) -> TapKind {
        self.order.kind()
    }

    fn see(&mut self, departed: &Departed) -> Seen {
        self.asked = self.asked.saturating_add(1);
        self.order.see(departed)
    }

    fn lose(&mut self, dropped: &Dropped) {
        self.asked = self.asked.saturating_add(1);
        self.order.lose(dropped);
    }

    fn say(&self, into: &mut Vec<u8>) -> Result<(), AllocError> {
        self.order.say(into)
    }
}

/// A run with these arguments after the file names, and its result.
#[derive(Clone, Copy)]
struct Row {
    policy: &'static [u8],
    script: &'static [u8],
    named: &'static [&'static str],
    status: u8,
    text: &'static [u8],
    /// The lines of the taps that are left.
    left: &'static [u8],
}

const ROWS: [Row; 6] = [
    // If no kind is named, no tap watches, and all are dropped.
    Row {
        policy: POLICY,
        script: b"rest\ndrain\n",
        named: &[],
        status: 0,
        text: b"a 1 1 root 0\na 2 2 root 0\nd 3 1 root 0\nd 4 2 root 0\nend pushed 2 popped 2 empty 0 held 0 unsent 0\n",
        left: b"",
    },
    // The lines are in the order of the list, and taps that are done are dropped.
    Row {
        policy: POLICY,
        script: b"a\nd 2\na\nd\n",
        named: &["tap", "order", "tap", "first"],
        status: 0,
        text: b"a 1 1 root 0\nd 2 1 root 0\ne 3\na 4 2 root 0\nd 5 2 root 0\nend pushed 2 popped 2 empty 1 held 0 unsent 0\n\
            tap first\ntap order 0 2\ntap first 1\ntap order 0 2\ntap first 1 2\ntap first 1 2\n",
        left: b"tap order 0 2\ntap order 0 2\ntap first 1 2\n",
    },
    // The tap with limit 0 isn't done before the first departure.
    Row {
        policy: POLICY,
        script: b"d\n",
        named: &["tap", "first", "tap", "bytes"],
        status: 0,
        text: b"e 1\nend pushed 0 popped 0 empty 1 held 0 unsent 2\n\
            tap first\ntap first\ntap bytes 0 0\ntap first\ntap first\n",
        left: b"tap first\ntap first\ntap bytes 0 0\ntap first\ntap first\n",
    },
    // Only taps of kind `drops` count drops.
    Row {
        policy: FULL,
        script: b"a 2\nd 2\n",
        named: &["tap", "drops", "tap", "bytes"],
        status: 0,
        text: b"a 1 1 root 0\nx 2 2 root\nd 3 1 root 0\ne 4\nend pushed 1 popped 1 empty 1 held 0 unsent 0 dropped 1\n\
            tap bytes 1 4\ntap drops 1 4\n",
        left: b"tap bytes 1 4\ntap drops 1 4\n",
    },
    // After an error in mid-run no tap line is written, and the list is as the run left it.
    Row {
        policy: POLICY,
        script: b"a\nd\na 2\n",
        named: &["tap", "first", "tap", "bytes"],
        status: 6,
        text: b"a 1 1 root 0\nd 2 1 root 0\na 3 2 root 0\nfault script 3 4\n",
        left: b"tap bytes 1 4\ntap first 1\ntap first 1\n",
    },
    // After an error before the run, the list is unchanged.
    Row {
        policy: b"policy 1\n",
        script: b"d\n",
        named: &["tap", "order"],
        status: 3,
        text: b"fault policy 9 0\n",
        left: b"tap first\ntap order 0 0\ntap first\ntap bytes 0 0\ntap drops 0 0\ntap order 0 0\ntap first\ntap first\n",
    },
];

/// Returns the lines of taps.
fn lines_of(alloc: Global, taps: &[Box<dyn Tap>]) -> Result<Vec<u8>, AllocError> {
    let mut lines = Vec::new(alloc);
    for tap in taps {
        tap.say(&mut lines)?;
    }
    Ok(lines)
}

/// Runs a row, and returns its status and the text written.
fn answer_to(
    alloc: Global,
    row: &Row,
    taps: &mut Vec<Box<dyn Tap>>,
) -> Result<(u8, Vec<u8>), Fail> {
    let list = arguments(alloc, &["replay", "p", "t", "c", "e"], row.named)?;
    let mut shelf = PlainShelf::new(files(alloc, row.policy, CAPTURE, row.script)?);
    let mut sink = PlainSink::new(alloc, 300)?;
    let mut fabric = FlatFabric::new(alloc)?;
    let status = run(alloc, &list, &mut shelf, &mut sink, &mut fabric, taps);
    Ok((status, sink.bytes().to_vec(alloc)?))
}

/// Runs a row, and returns its status, the text written, and the lines of the taps that are left.
/// The taps of kind `first` have the limits 0, 1, 2 and 64. The last tap but two is the one of
/// this crate.
fn watch(alloc: Global, row: &Row) -> Result<(u8, Vec<u8>, Vec<u8>), Fail> {
    let none = FirstTap::new(alloc, 0)?;
    let one = FirstTap::new(alloc, 1)?;
    let two = FirstTap::new(alloc, 2)?;
    let most = FirstTap::new(alloc, 64)?;
    let order = OrderTap::new();
    let asked = AskedTap { order, asked: 0 };
    let mut taps: Vec<Box<dyn Tap>> = Vec::new(alloc);
    taps.push(Box::new(alloc, none)?)?;
    taps.push(Box::new(alloc, OrderTap::new())?)?;
    taps.push(Box::new(alloc, one)?)?;
    taps.push(Box::new(alloc, BytesTap::new())?)?;
    taps.push(Box::new(alloc, DropsTap::new())?)?;
    taps.push(Box::new(alloc, asked)?)?;
    taps.push(Box::new(alloc, two)?)?;
    taps.push(Box::new(alloc, most)?)?;
    let (status, written) = answer_to(alloc, row, &mut taps)?;
    let left = lines_of(alloc, taps.as_slice())?;
    Ok((status, written, left))
}

#[test]
fn other_taps_watch_runs(rt: HostRuntime) -> Result<(), Fail> {
    let alloc = rt.alloc();
    for row in &ROWS {
        let (status, written, left) = watch(alloc, row)?;
        assert_eq!(rt; (status, written.as_slice()), (row.status, row.text));
        assert_eq!(rt; left.as_slice(), row.left);
    }
    Ok(())
}
