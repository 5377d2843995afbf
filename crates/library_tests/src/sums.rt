//! A run whose sums were worked out by hand.
use outside_core::PlainSink;
use packet_defs::{BLANK, Departed, Packet};
use sched_defs::LinkRate;
use sched_run::Recorder;
use std::test::Fail;
use summary_core::{Delays, Summary, groups_of};

/// Returns a packet of the first class.
pub(crate) fn packet(number: u64, len: u32, moment: u64) -> Packet {
    let mut packet = BLANK;
    packet.number = number;
    packet.len = len;
    packet.moment = moment;
    packet
}

/// Returns the departure of a packet of the first class.
pub(crate) fn departure(packet: u64, len: u32) -> Departed {
    Departed {
        packet,
        class: 0,
        leaf: 0,
        len,
    }
}

/// On a link of 1,000 bytes per second, 100 bytes take 0.1 s and 50 bytes take 0.05 s.
#[test]
fn a_played_run_is_summed(rt: HostRuntime) -> Result<(), Fail> {
    let mut sink = PlainSink::new(rt.alloc(), 0)?;
    let table = vec![in rt.alloc(); 0]?;
    let mut summary = Summary::new(rt.alloc(), LinkRate::plain(1_000), table, 1)?;
    summary.arrived(&mut sink, 1, &packet(1, 100, 5), &[], "root", &[0])?;
    summary.arrived(&mut sink, 2, &packet(2, 50, 7), &[], "root", &[0])?;
    summary.dropped(&mut sink, 3, &packet(3, 50, 8), "root")?;
    summary.departed(&mut sink, 4, &departure(1, 100), "root", &[0], Some(5))?;
    let start = Some(100_000_005);
    summary.departed(&mut sink, 5, &departure(2, 50), "root", &[0], start)?;
    assert!(rt; summary.is_whole());
    let all = summary.all();
    assert_eq!(rt; (all.arrived, all.departed, all.dropped), (2, 2, 1));
    assert_eq!(rt; (all.bytes, all.queued, all.most_queued), (150, 0, 2));
    assert_eq!(rt; all.most_queued_bytes, 150);
    assert_eq!(rt; (all.delay_sum, all.jitter_sum), (99_999_998, 99_999_998));
    assert_eq!(rt; all.span(), Some(150_000_000));
    assert_eq!(rt; all.throughput(), Some(1_000));
    assert_eq!(rt; summary.leaf(0), Some(all));
    assert_eq!(rt; summary.class(1), None);
    let groups = groups_of(rt.alloc(), &mut summary, &[], &[])?;
    assert_eq!(rt;
        groups.all.delays,
        Some(Delays {
            minimum: 0,
            median: 0,
            p95: 99_999_998,
            p99: 99_999_998,
            maximum: 99_999_998,
        })
    );
    let lists = summary.into_delays();
    assert_eq!(rt; lists.len(), 1);
    assert_eq!(rt; lists[0].len(), 2);
    Ok(())
}
