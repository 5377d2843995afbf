//! Tests of writing captures to a sink that fails.
use outside_core::{MemSink, Sink, SinkError};
use pcap_core::{put_head, put_record};
use std::test::Fail;

/// A capture of link type 147, with two packets in second 1.
const TWO_PACKETS: &[u8] =
    b"\x4d\x3c\xb2\xa1\x02\x00\x04\x00\x00\x00\x00\x00\x00\x00\x00\x00\x00\x00\x04\x00\x93\x00\x00\x00\
    \x01\x00\x00\x00\x00\x00\x00\x00\x04\x00\x00\x00\x04\x00\x00\x00\x00\x00\x00\x01\
    \x01\x00\x00\x00\xe8\x03\x00\x00\x04\x00\x00\x00\x04\x00\x00\x00\x00\x00\x00\x02";

fn put_two_packets<K: Sink>(sink: &mut K) -> Result<(), SinkError> {
    put_head(sink, 147)?;
    put_record(sink, 1, 0, 4, &[0, 0, 0, 1])?;
    put_record(sink, 1, 1_000, 4, &[0, 0, 0, 2])
}

/// A header is one write, and a record is two. A sink takes as many bytes as it has room for.
#[test]
fn what_was_written_before_a_fault_stays(rt: HostRuntime) -> Result<(), Fail> {
    let alloc = rt.alloc();
    for (fail, room, kept) in [
        (0, 64, 64),
        (1, 64, 0),
        (2, 64, 24),
        (3, 64, 40),
        (4, 64, 44),
        (5, 64, 60),
        (6, 64, 64),
        (0, 23, 23),
        (0, 42, 42),
        (0, 63, 63),
    ] {
        let fails = vec![in alloc; fail]?;
        let mut sink = MemSink::new(alloc, room, 100, fails)?;
        let is_whole = put_two_packets(&mut sink).is_ok();
        assert_eq!(rt; (fail, room, is_whole), (fail, room, kept == 64));
        assert_eq!(rt; sink.bytes(), &TWO_PACKETS[..kept]);
    }
    Ok(())
}
