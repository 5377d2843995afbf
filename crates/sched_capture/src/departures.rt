//! Runs of a link whose departures are written as a capture.
ghost use Rattle.std.specs.Prelude.{◌≡◌, ◌≤◌, ℕ, Some, ◌<◌, IfOk, IfErr, IfSome, IsTrue, OnOk, OnErr};
ghost use Rattle.outside_core.specs.Kept.{KeepsSink, HasCause, HasSinkCause};
ghost use Rattle.outside_core.specs.Written.{Appended, AppendedPrefix};
ghost use Rattle.sched_defs.specs.SendTime.{IsRate};
ghost use Rattle.sched_defs.specs.SourceState.{start};
ghost use Rattle.sched_defs.specs.Events.{outcomes};
ghost use Rattle.sched_defs.specs.Packets.{Captured, StaysKnown};
ghost use Rattle.pcap_core.specs.Bytes.{header_bytes};
ghost use Rattle.pcapng_defs.specs.NgContents.{in_file};
ghost use Rattle.sched_capture.specs.Arrivals.{Begins, AreCapturedIn};
ghost use Rattle.sched_capture.specs.CapturePackets as any;
ghost use Rattle.sched_capture.specs.SingleLinkType.{resolved_of, link_of, left_of, captures_of};
ghost use Rattle.sched_capture.specs.SingleLinkType.{EachFileOf, one_link_in, link_in};
ghost use Rattle.sched_run.specs.Frames.{Continues};
ghost use Rattle.sched_run.specs.Stages.{IsFresh};
ghost use Rattle.sched_run.specs.Played.{HasMade, HasMadeSome};
ghost use Rattle.sched_capture.specs.Forwarding.{IsUnused};
ghost use Rattle.sched_embedded.specs.Fabrics.{Leaves, LeavesPart, run_of};
ghost use Rattle.sched_capture.specs.Answers.{IsRefusal, IsRefusalPart};
ghost use Rattle.sched_capture.specs.Forwards.{forward_ending, refusal_ending, sent_bytes, forward_events, forward_of, forward_through, forward_answer};
ghost use Rattle.sched_capture.specs.Placements.{laid_by, laid_in, CanCount, MapsInto};
ghost use Rattle.sched_capture.specs.Starts.{IsAtStart, AreUnread, AreUnreadOfOne};
ghost use Rattle.sched_capture.specs.Outside.{KeepsOutside};

use crate::capture::{begin, direct_run, refuse};
use crate::capture_packets::CapturePackets;
use crate::fabric::run_through;
use crate::forwarding::Forwarding;
use crate::laid::LaidPolicy;
use crate::single_link_type::{OTHER_LINK, SingleLinkType};
use embed_core::{Map, Target};
use fabric_core::Fabric;
use outside_core::{ReadError, Shelf, Sink, SinkError, Stop};
use pcap_core::put_head;
use policy_core::Policy;
use sched_core::Scheduler;
use sched_defs::{Ending, LinkRate};
use sched_run::{NameTable, Recorder, Run};
use std::alloc::Global;
use tap_core::{Named, OrderTap, Watching};

/// The ending of a run whose departures are written as a capture.
#[derive(Clone, Copy, Debug)]
pub enum ForwardEnding {
    /// All packets arrived, and all that weren't dropped departed.
    Whole,
    /// The capture has a fault of this code at this position (`place`).
    BadCapture(u32, u64),
    /// The packet of this number has another link type than the first packet.
    OtherLink(u64),
    /// A departure would start at 2^32 seconds or later, which no record can hold.
    Late,
}

/// Converts a run's ending. `None` means that a late departure ended the run early.
fn ending_of(ending: Option<Ending>) -> ForwardEnding
    ensures { result ≡ forward_ending ending }
{
    match ending {
        None => ForwardEnding::Late,
        Some(Ending::BadCapture(OTHER_LINK, packet)) => ForwardEnding::OtherLink(packet),
        Some(Ending::BadCapture(code, place)) => ForwardEnding::BadCapture(code, place),
        Some(_) => ForwardEnding::Whole,
    }
}

/// Converts the ending of a file that was rejected, which is the capture's fault.
fn refusal_of(ending: Ending) -> ForwardEnding
    ensures { result ≡ refusal_ending ending }
{
    match ending {
        Ending::BadCapture(code, place) => ForwardEnding::BadCapture(code, place),
        _ => ForwardEnding::Whole,
    }
}

/// Reads the first packet, if there is one, of a capture whose beginning was read. If no run can
/// follow, the error is the run's result, as in `begin`.
fn begin_packets<'a, S: Shelf, K: Sink>(
    alloc: Global,
    arrivals: CapturePackets<'a, S>,
    shelf: &mut S,
    sink: &mut K,
) -> Result<SingleLinkType<'a, S>, Result<Ending, Stop>>
    requires unread { AreUnread (any.policy_of arrivals) arrivals (S.begun shelf.old) }

    ensures begins { IfOk result (λ o. EachFileOf (any.contents_of arrivals.entry
        (S.left shelf.old)) (λ file.
        Begins (any.resolved_of arrivals.entry) (one_link_in file) (left_of o (S.left shelf.new)))) }
    ensures captures { IfOk result (λ o. EachFileOf (any.contents_of arrivals.entry
        (S.left shelf.old)) (λ file.
        StaysKnown (AreCapturedIn (one_link_in file)) (captures_of o (S.left shelf.new)))) }
    ensures link { IfOk result (λ o. EachFileOf (any.contents_of arrivals.entry (S.left shelf.old))
        (λ file.
        link_of o ≡ link_in file)) }
    ensures policy { IfOk result (λ o. resolved_of o ≡ any.resolved_of arrivals.entry) }
    ensures unread { IfOk result (λ o. AreUnreadOfOne (any.policy_of arrivals.entry) o
        (S.begun shelf.new)) }
    ensures unwritten { OnOk result (sink.new ≡ sink.old) }

    ensures refused { IfErr result (λ answer. IfOk answer (λ e.
        EachFileOf (any.contents_of arrivals.entry (S.left shelf.old)) (λ file.
        IsRefusal (one_link_in file) e (K.written sink.old) (K.written sink.new)))) }
    ensures part { IfErr result (λ answer. OnErr answer (EachFileOf
        (any.contents_of arrivals.entry (S.left shelf.old)) (λ file.
        IsRefusalPart (one_link_in file) (K.written sink.old) (K.written sink.new)))) }
    ensures kept { KeepsSink K.written K.faults sink.old sink.new }
    ensures later { S.faults shelf.old ≤ S.faults shelf.new }
    ensures cause { IfErr result (λ answer. IfErr answer (λ stop.
        HasCause stop S.faults shelf.old shelf.new K.faults sink.old sink.new)) }
{
    match SingleLinkType::start(arrivals, shelf) {
        Ok(packets) => Ok(packets),
        Err(ReadError::Fault(code, place)) => Err(refuse(alloc, sink, code, place)),
        Err(ReadError::Source) => Err(Err(Stop::Source)),
        Err(ReadError::Memory) => Err(Err(Stop::Memory)),
    }
}

/// Begins the capture of this name and reads its first packet. If no run can follow, the error is
/// the run's result, as in `begin`.
fn begin_one_link<'a, S: Shelf, K: Sink>(
    alloc: Global,
    policy: &'a Policy,
    capture: &str,
    shelf: &mut S,
    sink: &mut K,
) -> Result<SingleLinkType<'a, S>, Result<Ending, Stop>>
    requires lent { IsTrue (S.lends shelf.old capture.now) }

    ensures begins { IfOk result (λ o. IfSome (S.content shelf.old capture.now) (λ file.
        Begins policy.now (one_link_in (in_file file)) (left_of o (S.left shelf.new)))) }
    ensures captures { IfOk result (λ o. IfSome (S.content shelf.old capture.now) (λ file.
        StaysKnown (AreCapturedIn (one_link_in (in_file file))) (captures_of o (S.left shelf.new)))) }
    ensures link { IfOk result (λ o. IfSome (S.content shelf.old capture.now) (λ file. link_of o ≡
        link_in (in_file file))) }
    ensures policy { IfOk result (λ o. resolved_of o ≡ policy.now) }
    ensures unread { IfOk result (λ o. AreUnreadOfOne policy.now.policy o (S.begun shelf.new)) }
    ensures unwritten { OnOk result (sink.new ≡ sink.old) }

    ensures refused { IfErr result (λ answer. IfOk answer (λ e.
        IfSome (S.content shelf.old capture.now) (λ file.
        IsRefusal (one_link_in (in_file file)) e (K.written sink.old) (K.written sink.new)))) }
    ensures part { IfErr result (λ answer. OnErr answer (IfSome (S.content shelf.old capture.now)
        (λ file.
        IsRefusalPart (one_link_in (in_file file)) (K.written sink.old) (K.written sink.new)))) }
    ensures kept { KeepsSink K.written K.faults sink.old sink.new }
    ensures later { S.faults shelf.old ≤ S.faults shelf.new }
    ensures cause { IfErr result (λ answer. IfErr answer (λ stop.
        HasCause stop S.faults shelf.old shelf.new K.faults sink.old sink.new)) }
{
    match begin(alloc, policy, capture, shelf, sink) {
        Ok(arrivals) => begin_packets(alloc, arrivals, shelf, sink),
        Err(answer) => Err(answer),
    }
}

/// Runs a link over packets of one link type with any scheduler of this policy that represents the
/// start, and writes a record for each departure.
fn forward_over<C: Scheduler + Drop, S: Shelf, K: Sink>(
    policy: &Policy,
    run: &mut Run<C, NameTable<'_>, Forwarding>,
    under: &mut C::Under,
    rate: LinkRate,
    packets: &mut SingleLinkType<'_, S>,
    shelf: &mut S,
    sink: &mut K,
    watch: &mut Watching<OrderTap>,
) -> Result<ForwardEnding, Stop>
    requires start { IsAtStart C.Scheduler ⟦<Forwarding as Recorder>⟧ (λ p. p.policy)
        policy.now.policy run.old under.old }
    requires unused { IsUnused run.old.recorder }
    requires fresh { IsFresh run.old.tally }
    requires unread { AreUnreadOfOne policy.now.policy packets.old (S.begun shelf.old) }
    requires rate { IsRate rate }

    ensures ending { IfOk result (λ e. IfSome (left_of packets.old (S.left shelf.old)) (λ l.
        (link : ℕ) (captured : Captured) →
        e ≡ (forward_of policy.now.policy rate link captured l).ending)) }
    ensures text { OnOk result (IfSome (left_of packets.old (S.left shelf.old)) (λ l.
        (captured : Captured) →
        captures_of packets.old (S.left shelf.old) captured → Appended (K.written sink.old) (K.written sink.new)
        (sent_bytes captured (outcomes policy.now.policy (forward_events policy.now.policy rate l) (start policy.now.policy))))) }
    ensures part { OnErr result (IfSome (left_of packets.old (S.left shelf.old)) (λ l.
        (captured : Captured) →
        captures_of packets.old (S.left shelf.old) captured → AppendedPrefix (K.written sink.old) (K.written sink.new)
        (sent_bytes captured (outcomes policy.now.policy (forward_events policy.now.policy rate l) (start policy.now.policy))))) }
    ensures state { OnOk result (IfSome (left_of packets.old (S.left shelf.old)) (λ l.
        HasMade C.Scheduler policy.now.policy (forward_events policy.now.policy rate l) (start policy.now.policy)
        run.old.scheduler under.old run.new.scheduler under.new)) }
    ensures amid { OnErr result (IfSome (left_of packets.old (S.left shelf.old)) (λ l.
        HasMadeSome C.Scheduler policy.now.policy (forward_events policy.now.policy rate l) (start policy.now.policy)
        run.old.scheduler under.old run.new.scheduler under.new)) }
    ensures kept_run { Continues C.Scheduler run.old run.new }
    ensures outside { KeepsOutside result S.faults shelf.old shelf.new K.written K.faults sink.old
        sink.new }
{
    let ending = run.play_link(under, sink, watch, packets, shelf, rate)?;
    run.recorder.finish(sink)?;
    Ok(ending_of(ending))
}

/// Writes the header of a capture with this link type.
fn write_header<K: Sink>(sink: &mut K, link: u16) -> Result<(), Stop>
    ensures bytes { OnOk result (Appended (K.written sink.old) (K.written sink.new)
        (header_bytes link)) }
    ensures part { OnErr result (AppendedPrefix (K.written sink.old) (K.written sink.new)
        (header_bytes link)) }
    ensures kept { KeepsSink K.written K.faults sink.old sink.new }
    ensures cause { IfErr result (λ stop. HasSinkCause stop K.faults sink.old sink.new) }
{
    match put_head(sink, link) {
        Ok(()) => Ok(()),
        Err(SinkError::Failed) => Err(Stop::Sink),
    }
}

/// Runs a link over packets of one link type, through a fabric into which the policy's tree is
/// laid, and writes a record for each departure.
fn forward_records<S: Shelf, K: Sink, F: Fabric>(
    alloc: Global,
    policy: &Policy,
    target: &Target,
    map: Map,
    rate: LinkRate,
    packets: &mut SingleLinkType<'_, S>,
    shelf: &mut S,
    sink: &mut K,
    fabric: &mut F,
) -> Result<ForwardEnding, Stop>
    requires rate { IsRate rate }
    requires placed { MapsInto policy.now.policy map target.now }
    requires counts { CanCount F.Fabric fabric.old }
    requires unread { AreUnreadOfOne policy.now.policy packets.old (S.begun shelf.old) }

    ensures ending { IfOk result (λ e. IfSome (left_of packets.old (S.left shelf.old)) (λ l.
        (link : ℕ) (captured : Captured) →
        e ≡ (forward_of policy.now.policy rate link captured l).ending)) }
    ensures text { OnOk result (IfSome (left_of packets.old (S.left shelf.old)) (λ l.
        (captured : Captured) →
        captures_of packets.old (S.left shelf.old) captured → Appended (K.written sink.old) (K.written sink.new)
        (sent_bytes captured (outcomes policy.now.policy (forward_events policy.now.policy rate l) (start policy.now.policy))))) }
    ensures part { OnErr result (IfSome (left_of packets.old (S.left shelf.old)) (λ l.
        (captured : Captured) →
        captures_of packets.old (S.left shelf.old) captured → AppendedPrefix (K.written sink.old) (K.written sink.new)
        (sent_bytes captured (outcomes policy.now.policy (forward_events policy.now.policy rate l) (start policy.now.policy))))) }
    ensures fabric { OnOk result (IfSome (left_of packets.old (S.left shelf.old)) (λ l.
        Leaves F.Fabric
        (Some (forward_through policy.now.policy (laid_in map target.now) rate l))
        fabric.old fabric.new)) }
    ensures fabric_part { OnErr result (IfSome (left_of packets.old (S.left shelf.old)) (λ l.
        LeavesPart F.Fabric
        (Some (forward_through policy.now.policy (laid_in map target.now) rate l))
        fabric.old fabric.new)) }
    ensures outside { KeepsOutside result S.faults shelf.old shelf.new K.written K.faults sink.old
        sink.new }
{
    let recorder = Forwarding::new(alloc)?;
    let mut run = run_through(alloc, policy, target, map, recorder, fabric)?;
    let mut watch: Watching<OrderTap> = Watching::new(alloc, Named::none(), Vec::new(alloc));
    forward_over(
        policy, &mut run, fabric, rate, packets, shelf, sink, &mut watch,
    )
}

/// Runs a link over packets of one link type, through a fabric into which the policy's tree is
/// laid, and writes the header and a record for each departure.
fn forward_packets<S: Shelf, K: Sink, F: Fabric>(
    alloc: Global,
    policy: &Policy,
    target: &Target,
    map: Map,
    rate: LinkRate,
    packets: &mut SingleLinkType<'_, S>,
    shelf: &mut S,
    sink: &mut K,
    fabric: &mut F,
) -> Result<ForwardEnding, Stop>
    requires rate { IsRate rate }
    requires placed { MapsInto policy.now.policy map target.now }
    requires counts { CanCount F.Fabric fabric.old }
    requires unread { AreUnreadOfOne policy.now.policy packets.old (S.begun shelf.old) }

    ensures ending { IfOk result (λ e. IfSome (left_of packets.old (S.left shelf.old)) (λ l.
        (link : ℕ) (captured : Captured) →
        e ≡ (forward_of policy.now.policy rate link captured l).ending)) }
    ensures text { OnOk result (IfSome (left_of packets.old (S.left shelf.old)) (λ l.
        (captured : Captured) →
        captures_of packets.old (S.left shelf.old) captured → Appended (K.written sink.old) (K.written sink.new)
        (forward_of policy.now.policy rate (link_of packets.old) captured l).text)) }
    ensures part { OnErr result (IfSome (left_of packets.old (S.left shelf.old)) (λ l.
        (captured : Captured) →
        captures_of packets.old (S.left shelf.old) captured → AppendedPrefix (K.written sink.old) (K.written sink.new)
        (forward_of policy.now.policy rate (link_of packets.old) captured l).text)) }
    ensures fabric { OnOk result (IfSome (left_of packets.old (S.left shelf.old)) (λ l.
        Leaves F.Fabric
        (Some (forward_through policy.now.policy (laid_in map target.now) rate l))
        fabric.old fabric.new)) }
    ensures fabric_part { OnErr result (IfSome (left_of packets.old (S.left shelf.old)) (λ l.
        LeavesPart F.Fabric
        (Some (forward_through policy.now.policy (laid_in map target.now) rate l))
        fabric.old fabric.new)) }
    ensures outside { KeepsOutside result S.faults shelf.old shelf.new K.written K.faults sink.old
        sink.new }
{
    write_header(sink, packets.link())?;
    forward_records(
        alloc, policy, target, map, rate, packets, shelf, sink, fabric,
    )
}

/// Runs a link over a capture, through a fabric into which a map lays the policy's tree, and writes
/// the departures as a capture. The header is written once the capture's first record is read, or
/// once it is known to have none. A record follows for each departure, with the timestamp at which
/// it starts. The fabric takes the target's shape after the header
/// is written. Returns how the run ended. Fails if the capture can't be read, if the records can't
/// be written, or when out of memory. The output is then cut short.
pub fn forward<S: Shelf, K: Sink, F: Fabric>(
    alloc: Global,
    laid: LaidPolicy,
    capture: &str,
    rate: LinkRate,
    shelf: &mut S,
    sink: &mut K,
    fabric: &mut F,
) -> Result<ForwardEnding, Stop>
    requires lent { IsTrue (S.lends shelf.old capture.now) }
    requires rate { IsRate rate }
    requires counts { CanCount F.Fabric fabric.old }

    ensures ending { IfOk result (λ e. IfSome (S.content shelf.old capture.now) (λ file.
        e ≡ (forward_answer laid.policy rate file).ending)) }
    ensures text { OnOk result (IfSome (S.content shelf.old capture.now) (λ file.
        Appended (K.written sink.old) (K.written sink.new)
        (forward_answer laid.policy rate file).text)) }
    ensures part { OnErr result (IfSome (S.content shelf.old capture.now) (λ file.
        AppendedPrefix (K.written sink.old) (K.written sink.new)
        (forward_answer laid.policy rate file).text)) }
    ensures fabric { OnOk result (IfSome (S.content shelf.old capture.now) (λ file.
        Leaves F.Fabric (run_of laid.policy.policy (laid_by laid)
        (forward_answer laid.policy rate file).events)
        fabric.old fabric.new)) }
    ensures fabric_part { OnErr result (IfSome (S.content shelf.old capture.now) (λ file.
        LeavesPart F.Fabric (run_of laid.policy.policy (laid_by laid)
        (forward_answer laid.policy rate file).events)
        fabric.old fabric.new)) }
    ensures outside { KeepsOutside result S.faults shelf.old shelf.new K.written K.faults sink.old
        sink.new }
{
    let (policy, target, map) = laid.into_parts();
    match begin_one_link(alloc, &policy, capture, shelf, sink) {
        Ok(mut packets) => forward_packets(
            alloc,
            &policy,
            &target,
            map,
            rate,
            &mut packets,
            shelf,
            sink,
            fabric,
        ),
        Err(Ok(ending)) => Ok(refusal_of(ending)),
        Err(Err(stop)) => Err(stop),
    }
}

/// Runs a link over packets of one link type, through the policy's own tree of queues, and writes
/// the header and a record for each departure.
fn forward_own_packets<S: Shelf, K: Sink>(
    alloc: Global,
    policy: &Policy,
    rate: LinkRate,
    packets: &mut SingleLinkType<'_, S>,
    shelf: &mut S,
    sink: &mut K,
) -> Result<ForwardEnding, Stop>
    requires rate { IsRate rate }
    requires unread { AreUnreadOfOne policy.now.policy packets.old (S.begun shelf.old) }

    ensures ending { IfOk result (λ e. IfSome (left_of packets.old (S.left shelf.old)) (λ l.
        (link : ℕ) (captured : Captured) →
        e ≡ (forward_of policy.now.policy rate link captured l).ending)) }
    ensures text { OnOk result (IfSome (left_of packets.old (S.left shelf.old)) (λ l.
        (captured : Captured) →
        captures_of packets.old (S.left shelf.old) captured → Appended (K.written sink.old) (K.written sink.new)
        (forward_of policy.now.policy rate (link_of packets.old) captured l).text)) }
    ensures part { OnErr result (IfSome (left_of packets.old (S.left shelf.old)) (λ l.
        (captured : Captured) →
        captures_of packets.old (S.left shelf.old) captured → AppendedPrefix (K.written sink.old) (K.written sink.new)
        (forward_of policy.now.policy rate (link_of packets.old) captured l).text)) }
    ensures outside { KeepsOutside result S.faults shelf.old shelf.new K.written K.faults sink.old
        sink.new }
{
    write_header(sink, packets.link())?;
    let recorder = Forwarding::new(alloc)?;
    let (mut run, mut tree) = direct_run(alloc, policy, recorder)?;
    let mut watch: Watching<OrderTap> = Watching::new(alloc, Named::none(), Vec::new(alloc));
    forward_over(
        policy, &mut run, &mut tree, rate, packets, shelf, sink, &mut watch,
    )
}

/// Runs a link over a capture, through the policy's own tree of queues, and writes the departures
/// as a capture, as `forward` does.
pub fn forward_own<S: Shelf, K: Sink>(
    alloc: Global,
    policy: &Policy,
    capture: &str,
    rate: LinkRate,
    shelf: &mut S,
    sink: &mut K,
) -> Result<ForwardEnding, Stop>
    requires lent { IsTrue (S.lends shelf.old capture.now) }
    requires rate { IsRate rate }

    ensures ending { IfOk result (λ e. IfSome (S.content shelf.old capture.now) (λ file.
        e ≡ (forward_answer policy.now rate file).ending)) }
    ensures text { OnOk result (IfSome (S.content shelf.old capture.now) (λ file.
        Appended (K.written sink.old) (K.written sink.new) (forward_answer policy.now rate file).text)) }
    ensures part { OnErr result (IfSome (S.content shelf.old capture.now) (λ file.
        AppendedPrefix (K.written sink.old) (K.written sink.new) (forward_answer policy.now rate file).text)) }
    ensures outside { KeepsOutside result S.faults shelf.old shelf.new K.written K.faults sink.old
        sink.new }
{
    match begin_one_link(alloc, policy, capture, shelf, sink) {
        Ok(mut packets) => forward_own_packets(alloc, policy, rate, &mut packets, shelf, sink),
        Err(Ok(ending)) => Ok(refusal_of(ending)),
        Err(Err(stop)) => Err(stop),
    }
}
