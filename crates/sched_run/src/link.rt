//! The departures and arrivals that a link paces.
ghost use Rattle.std.specs.Prelude.{◌≡◌, ◌≤◌, ◌<◌, ◌+◌, ◌^◌, ◌==◌, if◌then◌else◌, max, IfSome};
ghost use Rattle.sched_defs.specs.SendTime.{IsRate, send_time};
ghost use Rattle.sched_defs.specs.Link.{is_due};

use crate::departure::DepartureRecorder;
use crate::run::Run;
use events_core::Link;
use outside_core::{ReadError, Sink, Stop};
use packet_defs::{BLANK, Packet};
use policy_defs::NodeNames;
use sched_core::Scheduler;
use sched_defs::{Ending, LinkRate, Packets};
use tap_core::{Tap, Watching};

/// Returns whether a departure is due before the timestamp. Without a timestamp it always is.
fn is_due(link: &Link, until: Option<u64>) -> bool
    ensures { result ≡ is_due until link.now }
{
    match until {
        Some(moment) => link.due(moment),
        None => true,
    }
}

/// Keeps the link busy for the send time of a departed packet of this length, if there is one.
fn take_time(link: &mut Link, departed: Option<u32>, rate: LinkRate)
    requires early { link.old < 2 ^ 126 }
    requires rate { IsRate rate }

    ensures time { IfSome departed (λ len. link.new ≡ link.old + send_time len rate) }
    ensures soon { link.new ≤ link.old + 2 ^ 62 }
{
    if let Some(len) = departed {
        link.send_at(len, rate);
    }
}

/// Leaves the link idle up to a timestamp if no packet is queued.
fn idle_at(link: &mut Link, held: u64, moment: u64)
    ensures { link.new ≡ (if held == 0 then max link.old moment else link.old) }
{
    if held == 0 {
        link.idle(moment);
    }
}

impl<C: Scheduler + Drop, N: NodeNames + Drop, W: DepartureRecorder> Run<C, N, W> {
    ghost use Rattle.std.specs.Prelude.{◌≡◌, ◌≤◌, ◌+◌, ◌^◌, ℕ, if◌then◌else◌, IfOk, OnErr};
    ghost use Rattle.tree_defs.specs.SourceTree.{size};
    ghost use Rattle.sched_defs.specs.Link.{send_until, link_turn};
    ghost use Rattle.sched_defs.specs.Numbered.{IsHeldBelow};
    ghost use Rattle.sched_run.specs.RecordingKinds.{recording_any, recording, recording_one};
    ghost use Rattle.sched_run.specs.Frames.{IsSet, Stand, CanBeginRun, CountsDepartures, KeepsShown, KeepsPlay};
    ghost use Rattle.sched_run.specs.Stages.{stage_at, CanBegin};
    ghost use Rattle.sched_run.specs.Links.{SendsUnless, SendsAmid, CanSend, CanCome, IsPaced, IsPacedForOne, Paces, PacesOne, CanPace, EndsLink};
    ghost use Rattle.sched_run.specs.Courses.{link_agenda, CoursesUnless, CoursesAmid};

    /// Sends queued packets as long as the link is free before the timestamp, or all of them if
    /// there is no timestamp. Returns whether nothing more can be recorded, which ends the run.
    fn send_until<K: Sink, T: Tap>(
        &mut self,
        under: &mut C::Under,
        sink: &mut K,
        watch: &mut Watching<T>,
        link: &mut Link,
        rate: LinkRate,
        until: Option<u64>,
    ) -> Result<bool, Stop>
        requires set { IsSet C.Scheduler W.Recorder N.policy self.old }
        requires stands { Stand C.Scheduler self.old under.old (CanSend self.old.tally) }
        requires paced { IsPaced C.Scheduler W.over self.old link.old rate }

        ensures ok { IfOk result (λ over.
            (given : ℕ) → SendsUnless over C.Scheduler (recording_any W.Recorder) W.over (C.policy self.old.scheduler)
            (λ s. send_until (C.policy self.old.scheduler) rate until (size s.tree) s link.old) link.new
            (stage_at K.Sink T.Tap self.old under.old sink.old given watch.old)
            (stage_at K.Sink T.Tap self.new under.new sink.new given watch.new)) }
        ensures err { OnErr result ((given : ℕ) →
            SendsAmid C.Scheduler (recording_any W.Recorder) W.over (C.policy self.old.scheduler)
            (λ s. send_until (C.policy self.old.scheduler) rate until (size s.tree) s link.old)
            (stage_at K.Sink T.Tap self.old under.old sink.old given watch.old)
            self.new.scheduler under.new (K.written sink.new)) }
        ensures paces { Paces W.over result self.new link.new }
        ensures counts { CountsDepartures (λ n. n ≤ 2 ^ 34) result self.old.tally self.new.tally }
        ensures keeps { KeepsShown C.Scheduler W.Recorder K.Sink T.Tap result self.old self.new
            sink.old sink.new watch.old watch.new }
    {
        let held = self.scheduler.held();
        for _sent in 0..held {
            if !is_due(link, until) {
                return Ok(false);
            }
            let start = Some(link.free());
            let departed = self.depart_next(under, sink, watch, start)?;
            take_time(link, departed, rate);
            if self.recorder.over() {
                return Ok(true);
            }
        }
        Ok(false)
    }

    /// Sends the packets that are due before a packet's timestamp, then makes that packet's
    /// arrival, and records each event. Returns whether nothing more could be recorded before the
    /// arrival.
    fn arrive_paced<K: Sink, T: Tap>(
        &mut self,
        under: &mut C::Under,
        sink: &mut K,
        watch: &mut Watching<T>,
        link: &mut Link,
        rate: LinkRate,
        packet: &Packet,
        captured: &[u8],
    ) -> Result<bool, Stop>
        requires set { IsSet C.Scheduler W.Recorder N.policy self.old }
        requires stands { Stand C.Scheduler self.old under.old (λ s.
            IsHeldBelow packet.now.number s.held × CanSend self.old.tally s) }
        requires comes { CanCome (C.policy self.old.scheduler) packet.now captured.now }
        requires paced { IsPacedForOne C.Scheduler W.over self.old link.old rate }

        ensures ok { IfOk result (λ over. (given : ℕ) → packet.now.number ≡ given + 1 →
            SendsUnless over C.Scheduler (recording_one W.Recorder packet.now captured.now) W.over
            (C.policy self.old.scheduler)
            (λ s. link_turn (C.policy self.old.scheduler) rate packet.now s link.old) link.new
            (stage_at K.Sink T.Tap self.old under.old sink.old given watch.old)
            (stage_at K.Sink T.Tap self.new under.new sink.new (if over then given else given + 1)
            watch.new)) }
        ensures err { OnErr result ((given : ℕ) → packet.now.number ≡ given + 1 →
            SendsAmid C.Scheduler (recording_one W.Recorder packet.now captured.now) W.over (C.policy self.old.scheduler)
            (λ s. link_turn (C.policy self.old.scheduler) rate packet.now s link.old)
            (stage_at K.Sink T.Tap self.old under.old sink.old given watch.old)
            self.new.scheduler under.new (K.written sink.new)) }
        ensures paces { PacesOne W.over result self.old self.new link.new }
        ensures keeps { KeepsShown C.Scheduler W.Recorder K.Sink T.Tap result self.old self.new
            sink.old sink.new watch.old watch.new }
    {
        let moment = self.scheduler.now().max(packet.moment);
        let over = self.send_until(under, sink, watch, link, rate, Some(moment))?;
        if over {
            return Ok(true);
        }
        idle_at(link, self.scheduler.held(), moment);
        self.make_arrival(under, sink, watch, packet, captured)?;
        Ok(false)
    }

    /// Makes the events that a link paces over the packets of the source, and records each outcome.
    /// The rate is in bytes per second. Returns how the run ends, or `None` if it ended early
    /// because nothing more can be recorded.
    pub fn play_link<P: Packets, K: Sink, T: Tap>(
        &mut self,
        under: &mut C::Under,
        sink: &mut K,
        watch: &mut Watching<T>,
        packets: &mut P,
        source: &mut P::Source,
        rate: LinkRate,
    ) -> Result<Option<Ending>, Stop>
        requires set { IsSet C.Scheduler W.Recorder N.policy self.old }
        requires stands { Stand C.Scheduler self.old under.old (CanBegin (P.given packets.old)) }
        requires begins { CanBeginRun C.Scheduler P.Packets self.old packets.old source.old }
        requires paced { CanPace W.over self.old.recorder rate }

        ensures ok { IfOk result (λ e.
            CoursesUnless e C.Scheduler (recording W.Recorder (P.captures packets.old source.old)) W.over
            (C.policy self.old.scheduler)
            (link_agenda (C.policy self.old.scheduler) rate 0) (P.left packets.old source.old)
            (stage_at K.Sink T.Tap self.old under.old sink.old (P.given packets.old) watch.old)
            (stage_at K.Sink T.Tap self.new under.new sink.new (P.given packets.new) watch.new)) }
        ensures err { OnErr result (
            CoursesAmid C.Scheduler (recording W.Recorder (P.captures packets.old source.old)) W.over
            (C.policy self.old.scheduler)
            (link_agenda (C.policy self.old.scheduler) rate 0) (P.left packets.old source.old)
            (stage_at K.Sink T.Tap self.old under.old sink.old (P.given packets.old) watch.old)
            self.new.scheduler under.new (K.written sink.new)) }
        ensures keeps { KeepsPlay C.Scheduler W.Recorder P.Packets K.Sink T.Tap result self.old
            self.new packets.old packets.new source.old source.new sink.old sink.new
            watch.old watch.new }
        ensures ends { EndsLink W.over result self.new.recorder }
    {
        let mut link = Link::new();
        let mut packet = BLANK;
        loop {
            match packets.next(source, &mut packet) {
                Ok(true) => {
                    let captured = packets.captured();
                    let over = self.arrive_paced(
                        under, sink, watch, &mut link, rate, &packet, captured,
                    )?;
                    if over {
                        return Ok(None);
                    }
                }
                Ok(false) => {
                    let over = self.send_until(under, sink, watch, &mut link, rate, None)?;
                    if over {
                        return Ok(None);
                    }
                    return Ok(Some(Ending::Whole(0)));
                }
                Err(ReadError::Fault(code, place)) => return Ok(Some(Ending::BadCapture(
                    code, place,
                ))),
                Err(ReadError::Source) => return Err(Stop::Source),
                Err(ReadError::Memory) => return Err(Stop::Memory),
            }
        }
    }
}
