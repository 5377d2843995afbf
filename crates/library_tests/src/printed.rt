//! A run whose text was worked out by hand.
use crate::sums::{departure, packet};
use list_core::Name;
use outside_core::PlainSink;
use sched_defs::LinkRate;
use sched_run::Recorder;
use std::alloc::{AllocError, Global};
use std::test::Fail;
use summary_core::{Label, Summary, groups_of, put_json, put_text};

/// The lines of the text, each with its line feed.
const TEXT: [&str; 10] = [
    "all: 1 packets departed, 0 dropped, 0 queued; 100 bytes; 999 bytes a second\n",
    "  delay in ns: least 7, median 7, 95 % 7, 99 % 7, greatest 7, mean 7\n",
    "  backlog: at most 1 packets, at most 100 bytes\n",
    "leaf root: 1 packets departed, 0 dropped, 0 queued; 100 bytes; 999 bytes a second\n",
    "  delay in ns: least 7, median 7, 95 % 7, 99 % 7, greatest 7, mean 7\n",
    "  backlog: at most 1 packets, at most 100 bytes\n",
    "class web: 1 packets departed, 0 dropped, 0 queued; 100 bytes; 999 bytes a second\n",
    "  delay in ns: least 7, median 7, 95 % 7, 99 % 7, greatest 7, mean 7\n",
    "  backlog: at most 1 packets, at most 100 bytes\n",
    "fairness of the leaves by weight (Jain): 1.000000\n",
];

const COUNTS: &str =
    "\"arrived\":1,\"departed\":1,\"dropped\":0,\"queued\":0,\"bytes\":100,\"throughput\":999,";

const DELAYS: &str =
    "\"delay\":{\"least\":7,\"median\":7,\"p95\":7,\"p99\":7,\"greatest\":7,\"mean\":7},";

const BACKLOG: &str = "\"jitter\":null,\"most_queued\":1,\"most_queued_bytes\":100}";

fn joined(alloc: Global, pieces: &[&str]) -> Result<Vec<u8>, AllocError> {
    let mut text = Vec::new(alloc);
    for piece in pieces {
        text.extend_from_slice(piece.as_bytes())?;
    }
    Ok(text)
}

fn expected_json(alloc: Global) -> Result<Vec<u8>, AllocError> {
    let all = [
        "{\"all\":{",
        COUNTS,
        DELAYS,
        BACKLOG,
        ",\"leaves\":[{\"name\":\"root\",",
        COUNTS,
        DELAYS,
        BACKLOG,
        "],\"classes\":[{\"name\":\"web\",",
        COUNTS,
        DELAYS,
        BACKLOG,
        "],\"jain\":1.000000}\n",
    ];
    joined(alloc, &all)
}

fn label(alloc: Global, name: &str, weight: u32) -> Result<Vec<Label>, AllocError> {
    let mut labels = Vec::new(alloc);
    let name = Name::new(alloc, name)?;
    labels.push(Label { name, weight })?;
    Ok(labels)
}

/// On a link of 1,000 bytes per second, 100 bytes take 0.1 s; with a delay of 7 ns the span is
/// 100,000,007 ns.
#[test]
fn a_run_is_printed(rt: HostRuntime) -> Result<(), Fail> {
    let mut sink = PlainSink::new(rt.alloc(), 0)?;
    let table = vec![in rt.alloc(); 0]?;
    let mut summary = Summary::new(rt.alloc(), LinkRate::plain(1_000), table, 1)?;
    summary.arrived(&mut sink, 1, &packet(1, 100, 5), &[], "root", &[0])?;
    summary.departed(&mut sink, 2, &departure(1, 100), "root", &[0], Some(12))?;
    let leaves = label(rt.alloc(), "root", 2)?;
    let classes = label(rt.alloc(), "web", 1)?;
    let groups = groups_of(rt.alloc(), &mut summary, &leaves, &classes)?;
    let text = put_text(rt.alloc(), &groups)?;
    let expected = joined(rt.alloc(), &TEXT)?;
    assert_eq!(rt; text.as_slice(), expected.as_slice());
    let json = put_json(rt.alloc(), &groups)?;
    let expected = expected_json(rt.alloc())?;
    assert_eq!(rt; json.as_slice(), expected.as_slice());
    Ok(())
}
