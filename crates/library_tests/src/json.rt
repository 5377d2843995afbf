//! A run whose lines were written by hand.
use event_json::JsonReport;
use outside_core::PlainSink;
use packet_defs::{BLANK, Departed, Packet};
use sched_defs::{Ending, LinkRate};
use sched_run::Recorder;
use std::test::Fail;

/// The lines of the run below, on a link that sends 100 bytes in 200 ns.
const LINES: &[u8] = b"\
{\"kind\":\"arrive\",\"event\":1,\"packet\":1,\"leaf\":\"web\",\"class\":1,\"bytes\":100,\
\"timestamp\":123,\"ranks\":[0,3]}
{\"kind\":\"depart\",\"event\":2,\"packet\":1,\"leaf\":\"web\",\"class\":1,\"bytes\":100,\
\"ranks\":[0,3],\"start\":500,\"finish\":700}
{\"kind\":\"drop\",\"event\":3,\"packet\":2,\"leaf\":\"mail\",\"class\":2,\"bytes\":60,\
\"timestamp\":130}
{\"kind\":\"empty\",\"event\":4}
{\"kind\":\"end\",\"arrived\":1,\"departed\":1,\"dropped\":1,\"empty\":1,\"queued\":0,\"unread\":5}
";

/// Returns a packet.
fn packet(number: u64, class: u32, len: u32, moment: u64) -> Packet {
    let mut packet = BLANK;
    packet.number = number;
    packet.class = class;
    packet.len = len;
    packet.moment = moment;
    packet
}

#[test]
fn a_played_run_is_written(rt: HostRuntime) -> Result<(), Fail> {
    let mut sink = PlainSink::new(rt.alloc(), 1_000)?;
    let mut report = JsonReport::new(rt.alloc(), Some(LinkRate::plain(500_000_000)))?;
    let web = packet(1, 0, 100, 123);
    report.arrived(&mut sink, 1, &web, &[], "web", &[0, 3])?;
    let departed = Departed {
        packet: 1,
        class: 0,
        leaf: 1,
        len: 100,
    };
    report.departed(&mut sink, 2, &departed, "web", &[0, 3], Some(500))?;
    report.dropped(&mut sink, 3, &packet(2, 1, 60, 130), "mail")?;
    report.empty(&mut sink, 4)?;
    report.finish(&mut sink, Ending::Whole(5))?;
    assert_eq!(rt; sink.bytes(), LINES);
    Ok(())
}
