//! The events of a step of a script, and their records.
ghost use Rattle.std.specs.Prelude.{[], ◌∷◌, OnOk};
ghost use Rattle.sched_run.specs.Shown.{drop_of, departure_of};
ghost use Rattle.tap_core.specs.Lists.{departed, dropped};
ghost use Rattle.tap_core.specs.Watching.{sight_of, Shows, AreNoMore};

use crate::departure::{Departure, DepartureRecorder};
use crate::run::Run;
use events_core::Step;
use outside_core::{ReadError, Sink, Stop};
use packet_defs::{BLANK, Departed, Packet};
use policy_defs::NodeNames;
use sched_core::{Arrival, Scheduler};
use sched_defs::{Ending, Packets};
use std::alloc::AllocError;
use tap_core::{Dropped, Tap, Watching};

/// Shows a drop to the taps that watch. A call of its own, so that packets that aren't dropped need
/// no memory for it.
#[inline(never)]
fn show_drop<T: Tap>(watch: &mut Watching<T>, packet: &Packet, leaf: u32)
    ensures shown { Shows (dropped (drop_of packet.now leaf) ∷ [])
        (sight_of T.kind_of T.state_of watch.old) (sight_of T.kind_of T.state_of watch.new) }
    ensures fewer { AreNoMore (sight_of T.kind_of T.state_of watch.old)
        (sight_of T.kind_of T.state_of watch.new) }
{
    watch.dropped(&Dropped {
        packet: packet.number,
        class: packet.class,
        leaf,
        len: packet.len,
    });
}

/// Shows a departure to the taps that watch. A call of its own with a departure's fields, so that a
/// departure needs no memory if none watches. The error means out of memory for the line of a
/// finished tap.
#[inline(never)]
fn show_departure<T: Tap>(
    watch: &mut Watching<T>,
    packet: u64,
    class: u32,
    leaf: u32,
    len: u32,
) -> Result<(), AllocError>
    ensures shown { OnOk result (Shows (departed (departure_of packet class leaf len) ∷ [])
        (sight_of T.kind_of T.state_of watch.old) (sight_of T.kind_of T.state_of watch.new)) }
    ensures fewer { AreNoMore (sight_of T.kind_of T.state_of watch.old)
        (sight_of T.kind_of T.state_of watch.new) }
{
    watch.departed(&Departed {
        packet,
        class,
        leaf,
        len,
    })
}

impl<C: Scheduler + Drop, N: NodeNames + Drop, W: DepartureRecorder> Run<C, N, W> {
    ghost use Rattle.std.specs.Prelude.{◌≡◌, ◌≤◌, ◌+◌, ℕ, [], ◌∷◌, length, replicate, None, IfOk, IfNone, OnOk, OnErr, option_map};
    ghost use Rattle.pcap_defs.specs.Record.{most_captured};
    ghost use Rattle.sched_defs.specs.Events.{Arrive, Depart, CanArrive};
    ghost use Rattle.sched_defs.specs.Numbered.{IsHeldBelow};
    ghost use Rattle.sched_defs.specs.Script.{Rest, step_events};
    ghost use Rattle.sched_core.specs.Departures.{next_departed};
    ghost use Rattle.sched_run.specs.Frames.{IsSet, Stand, FromAll, Feeds, HasRoomForOne, HasRoomToDepart, HasRoomForStep, CountsArrival, CountsDepartures, KeepsShown, KeepsPlay, IsFurther};
    ghost use Rattle.sched_run.specs.RecordingKinds.{recording_any, recording, recording_one};
    ghost use Rattle.sched_run.specs.Stages.{stage_at, IsReady, HasRoomFor, AreNext, Makes, Stops};
    ghost use Rattle.sched_run.specs.Steps.{step_of};
    ghost use Rattle.sched_run.specs.Turns.{Arrives, ArrivalsStop, Turns, StopsAmid, GoesOn};

    /// Makes the arrival of a packet with these captured bytes, records and counts it, and shows it
    /// to the taps that watch if it was dropped.
    #[inline(always)]
    pub(crate) fn make_arrival<K: Sink, T: Tap>(
        &mut self,
        under: &mut C::Under,
        sink: &mut K,
        watch: &mut Watching<T>,
        packet: &Packet,
        captured: &[u8],
    ) -> Result<(), Stop>
        requires short { length captured.now ≤ most_captured }
        requires set { IsSet C.Scheduler W.Recorder N.policy self.old }
        requires stands { Stand C.Scheduler self.old under.old (λ s.
            CanArrive (C.policy self.old.scheduler) s packet.now) }
        requires room { HasRoomForOne C.Scheduler self.old }

        ensures ok { OnOk result ((given : ℕ) → AreNext (C.policy self.old.scheduler) given
            (packet.now ∷ []) →
            Makes C.Scheduler (recording_one W.Recorder packet.now captured.now) (C.policy self.old.scheduler) (Arrive packet.now ∷ [])
            (stage_at K.Sink T.Tap self.old under.old sink.old given watch.old)
            (stage_at K.Sink T.Tap self.new under.new sink.new (given + 1) watch.new)) }
        ensures err { OnErr result ((given : ℕ) → AreNext (C.policy self.old.scheduler) given
            (packet.now ∷ []) →
            Stops C.Scheduler (recording_one W.Recorder packet.now captured.now) (C.policy self.old.scheduler) (Arrive packet.now ∷ [])
            (stage_at K.Sink T.Tap self.old under.old sink.old given watch.old)
            self.new.scheduler under.new (K.written sink.new)) }
        ensures counts { CountsArrival W.over result self.old self.new }
        ensures keeps { KeepsShown C.Scheduler W.Recorder K.Sink T.Tap result self.old self.new
            sink.old sink.new watch.old watch.new }
    {
        let event = self.tally.came + self.tally.asked + 1;
        let arrival = self.scheduler.arrive(under, packet, &mut self.trace)?;
        match arrival {
            Arrival::Pushed(leaf) => {
                let name = self.names.name(leaf);
                self.recorder
                    .arrived(sink, event, packet, captured, name, self.trace.ranks())?;
                self.tally.came += 1;
            }
            Arrival::Dropped(leaf) => {
                let name = self.names.name(leaf);
                self.recorder.dropped(sink, event, packet, name)?;
                self.tally.came += 1;
                self.tally.dropped += 1;
                show_drop(watch, packet, leaf);
            }
        }
        Ok(())
    }

    /// Makes the arrival of the next packet and records it. Returns how the run ends if no packet
    /// is left.
    #[inline(always)]
    pub(crate) fn arrive_next<P: Packets, K: Sink, T: Tap>(
        &mut self,
        under: &mut C::Under,
        sink: &mut K,
        watch: &mut Watching<T>,
        packets: &mut P,
        source: &mut P::Source,
    ) -> Result<Option<Ending>, Stop>
        requires set { IsSet C.Scheduler W.Recorder N.policy self.old }
        requires feeds { Feeds C.Scheduler P.Packets self.old packets.old source.old }
        requires stands { Stand C.Scheduler self.old under.old (λ s.
            IsHeldBelow (P.given packets.old + 1) s.held) }
        requires counts { HasRoomFor C.Scheduler self.old (P.given packets.old) }

        ensures ok { IfOk result (λ e.
            Arrives C.Scheduler (recording W.Recorder (P.captures packets.old source.old)) (C.policy self.old.scheduler) 1 e
            (P.left packets.old source.old) (P.left packets.new source.new)
            (stage_at K.Sink T.Tap self.old under.old sink.old (P.given packets.old) watch.old)
            (stage_at K.Sink T.Tap self.new under.new sink.new (P.given packets.new) watch.new)) }
        ensures err { OnErr result (
            ArrivalsStop C.Scheduler (recording W.Recorder (P.captures packets.old source.old)) (C.policy self.old.scheduler) 1
            (P.left packets.old source.old)
            (stage_at K.Sink T.Tap self.old under.old sink.old (P.given packets.old) watch.old)
            self.new.scheduler under.new (K.written sink.new)) }
        ensures keeps { KeepsPlay C.Scheduler W.Recorder P.Packets K.Sink T.Tap result self.old
            self.new packets.old packets.new source.old source.new sink.old sink.new
            watch.old watch.new }
        ensures further { IfOk result (λ e. GoesOn e (
            IsFurther P.Packets packets.old packets.new source.old source.new self.old.tally self.new.tally)) }
    {
        let mut packet = BLANK;
        match packets.next(source, &mut packet) {
            Ok(true) => {
                self.make_arrival(under, sink, watch, &packet, packets.captured())?;
                Ok(None)
            }
            Ok(false) => {
                let event = self.tally.came + self.tally.asked + 1;
                Ok(Some(Ending::PastLast(event)))
            }
            Err(ReadError::Fault(code, place)) => Ok(Some(Ending::BadCapture(code, place))),
            Err(ReadError::Source) => Err(Stop::Source),
            Err(ReadError::Memory) => Err(Stop::Memory),
        }
    }

    /// Makes the arrivals of the next `count` packets and records each. Returns how the run ends if
    /// fewer are left.
    pub(crate) fn arrive_some<P: Packets, K: Sink, T: Tap>(
        &mut self,
        under: &mut C::Under,
        sink: &mut K,
        watch: &mut Watching<T>,
        packets: &mut P,
        source: &mut P::Source,
        count: u64,
    ) -> Result<Option<Ending>, Stop>
        requires set { IsSet C.Scheduler W.Recorder N.policy self.old }
        requires feeds { Feeds C.Scheduler P.Packets self.old packets.old source.old }
        requires stands { Stand C.Scheduler self.old under.old (λ s.
            IsHeldBelow (P.given packets.old + 1) s.held) }
        requires counts { HasRoomFor C.Scheduler self.old (P.given packets.old) }

        ensures ok { IfOk result (λ e.
            Arrives C.Scheduler (recording W.Recorder (P.captures packets.old source.old)) (C.policy self.old.scheduler) count e
            (P.left packets.old source.old) (P.left packets.new source.new)
            (stage_at K.Sink T.Tap self.old under.old sink.old (P.given packets.old) watch.old)
            (stage_at K.Sink T.Tap self.new under.new sink.new (P.given packets.new) watch.new)) }
        ensures err { OnErr result (
            ArrivalsStop C.Scheduler (recording W.Recorder (P.captures packets.old source.old)) (C.policy self.old.scheduler) count
            (P.left packets.old source.old)
            (stage_at K.Sink T.Tap self.old under.old sink.old (P.given packets.old) watch.old)
            self.new.scheduler under.new (K.written sink.new)) }
        ensures keeps { KeepsPlay C.Scheduler W.Recorder P.Packets K.Sink T.Tap result self.old
            self.new packets.old packets.new source.old source.new sink.old sink.new
            watch.old watch.new }
        ensures further { IfOk result (λ e. IfNone e (
            IsFurther P.Packets packets.old packets.new source.old source.new self.old.tally self.new.tally)) }
    {
        for _sent in 0..count {
            let ending = self.arrive_next(under, sink, watch, packets, source)?;
            if ending.is_some() {
                return Ok(ending);
            }
        }
        Ok(None)
    }

    /// Makes the arrivals of all packets that are left and records each. Returns how the capture's
    /// fault ends the run, if it has one.
    pub(crate) fn arrive_rest<P: Packets, K: Sink, T: Tap>(
        &mut self,
        under: &mut C::Under,
        sink: &mut K,
        watch: &mut Watching<T>,
        packets: &mut P,
        source: &mut P::Source,
    ) -> Result<Option<Ending>, Stop>
        requires set { IsSet C.Scheduler W.Recorder N.policy self.old }
        requires feeds { Feeds C.Scheduler P.Packets self.old packets.old source.old }
        requires stands { Stand C.Scheduler self.old under.old (λ s.
            IsHeldBelow (P.given packets.old + 1) s.held) }
        requires counts { HasRoomFor C.Scheduler self.old (P.given packets.old) }

        ensures ok { IfOk result (λ e.
            Turns C.Scheduler (recording W.Recorder (P.captures packets.old source.old)) (C.policy self.old.scheduler) Rest e
            (P.left packets.old source.old) (P.left packets.new source.new)
            (stage_at K.Sink T.Tap self.old under.old sink.old (P.given packets.old) watch.old)
            (stage_at K.Sink T.Tap self.new under.new sink.new (P.given packets.new) watch.new)) }
        ensures err { OnErr result (
            StopsAmid C.Scheduler (recording W.Recorder (P.captures packets.old source.old)) (C.policy self.old.scheduler)
            (λ l s. step_events Rest l.packets s)
            (P.left packets.old source.old)
            (stage_at K.Sink T.Tap self.old under.old sink.old (P.given packets.old) watch.old)
            self.new.scheduler under.new (K.written sink.new)) }
        ensures keeps { KeepsPlay C.Scheduler W.Recorder P.Packets K.Sink T.Tap result self.old
            self.new packets.old packets.new source.old source.new sink.old sink.new
            watch.old watch.new }
        ensures further { IfOk result (λ e. IfNone e (
            IsFurther P.Packets packets.old packets.new source.old source.new self.old.tally self.new.tally)) }
    {
        loop {
            let ending = self.arrive_next(under, sink, watch, packets, source)?;
            if let Some(ending) = ending {
                return Ok(ending.at_fault());
            }
        }
    }

    /// Makes a departure, records and counts it, and shows it to the taps that watch. `start` is
    /// its timestamp in nanoseconds if a link paces it. Returns the length of the packet that
    /// departed. The error may mean out of memory for the line of a finished tap.
    #[inline(always)]
    pub(crate) fn depart_next<K: Sink, T: Tap>(
        &mut self,
        under: &mut C::Under,
        sink: &mut K,
        watch: &mut Watching<T>,
        start: Option<u128>,
    ) -> Result<Option<u32>, Stop>
        requires set { IsSet C.Scheduler W.Recorder N.policy self.old }
        requires stands { Stand C.Scheduler self.old under.old (λ _. Unit {0}) }
        requires room { HasRoomToDepart C.Scheduler self.old 1 }

        ensures ok { OnOk result ((given : ℕ) →
            Makes C.Scheduler (recording_any W.Recorder) (C.policy self.old.scheduler) (Depart start ∷ [])
            (stage_at K.Sink T.Tap self.old under.old sink.old given watch.old)
            (stage_at K.Sink T.Tap self.new under.new sink.new given watch.new)) }
        ensures err { OnErr result ((given : ℕ) →
            Stops C.Scheduler (recording_any W.Recorder) (C.policy self.old.scheduler) (Depart start ∷ [])
            (stage_at K.Sink T.Tap self.old under.old sink.old given watch.old)
            self.new.scheduler under.new (K.written sink.new)) }
        ensures value { IfOk result (λ len. FromAll C.Scheduler self.old under.old (λ s.
            len ≡ option_map (λ d. d.len) (next_departed (C.policy self.old.scheduler) s))) }
        ensures counts { CountsDepartures (λ n. n ≡ self.old.tally.asked + 1) result self.old.tally
            self.new.tally }
        ensures keeps { KeepsShown C.Scheduler W.Recorder K.Sink T.Tap result self.old self.new
            sink.old sink.new watch.old watch.new }
    {
        let event = self.tally.came + self.tally.asked + 1;
        let departed = self.recorder.depart(
            &self.names,
            &mut self.scheduler,
            under,
            &mut self.trace,
            sink,
            Departure { event, start },
        );
        match departed {
            Ok(Some(left)) => {
                self.tally.asked += 1;
                if watch.slots.is_empty() {
                    return Ok(Some(left.len));
                }
                show_departure(watch, left.packet, left.class, left.leaf, left.len)?;
                Ok(Some(left.len))
            }
            Ok(None) => {
                self.tally.asked += 1;
                Ok(None)
            }
            Err(_) => Err(Stop::Sink),
        }
    }

    /// Makes `count` departures and records each.
    pub(crate) fn depart_some<K: Sink, T: Tap>(
        &mut self,
        under: &mut C::Under,
        sink: &mut K,
        watch: &mut Watching<T>,
        count: u64,
    ) -> Result<(), Stop>
        requires set { IsSet C.Scheduler W.Recorder N.policy self.old }
        requires stands { Stand C.Scheduler self.old under.old (λ _. Unit {0}) }
        requires room { HasRoomToDepart C.Scheduler self.old count }

        ensures ok { OnOk result ((given : ℕ) →
            Makes C.Scheduler (recording_any W.Recorder) (C.policy self.old.scheduler) (replicate count (Depart None))
            (stage_at K.Sink T.Tap self.old under.old sink.old given watch.old)
            (stage_at K.Sink T.Tap self.new under.new sink.new given watch.new)) }
        ensures err { OnErr result ((given : ℕ) →
            Stops C.Scheduler (recording_any W.Recorder) (C.policy self.old.scheduler) (replicate count (Depart None))
            (stage_at K.Sink T.Tap self.old under.old sink.old given watch.old)
            self.new.scheduler under.new (K.written sink.new)) }
        ensures came { self.new.tally.came ≡ self.old.tally.came }
        ensures keeps { KeepsShown C.Scheduler W.Recorder K.Sink T.Tap result self.old self.new
            sink.old sink.new watch.old watch.new }
    {
        for _made in 0..count {
            self.depart_next(under, sink, watch, None)?;
        }
        Ok(())
    }

    /// Makes the events of a step and records each. Returns how they end the run, if they do.
    pub(crate) fn play_step<P: Packets, K: Sink, T: Tap>(
        &mut self,
        under: &mut C::Under,
        sink: &mut K,
        watch: &mut Watching<T>,
        packets: &mut P,
        source: &mut P::Source,
        step: Step,
    ) -> Result<Option<Ending>, Stop>
        requires set { IsSet C.Scheduler W.Recorder N.policy self.old }
        requires feeds { Feeds C.Scheduler P.Packets self.old packets.old source.old }
        requires stands { Stand C.Scheduler self.old under.old
            (IsReady (P.given packets.old) self.old.tally) }
        requires counts { HasRoomForStep C.Scheduler self.old (P.given packets.old) (step_of step) }

        ensures ok { IfOk result (λ e.
            Turns C.Scheduler (recording W.Recorder (P.captures packets.old source.old)) (C.policy self.old.scheduler) (step_of step) e
            (P.left packets.old source.old) (P.left packets.new source.new)
            (stage_at K.Sink T.Tap self.old under.old sink.old (P.given packets.old) watch.old)
            (stage_at K.Sink T.Tap self.new under.new sink.new (P.given packets.new) watch.new)) }
        ensures err { OnErr result (
            StopsAmid C.Scheduler (recording W.Recorder (P.captures packets.old source.old)) (C.policy self.old.scheduler)
            (λ l s. step_events (step_of step) l.packets s) (P.left packets.old source.old)
            (stage_at K.Sink T.Tap self.old under.old sink.old (P.given packets.old) watch.old)
            self.new.scheduler under.new (K.written sink.new)) }
        ensures keeps { KeepsPlay C.Scheduler W.Recorder P.Packets K.Sink T.Tap result self.old
            self.new packets.old packets.new source.old source.new sink.old sink.new
            watch.old watch.new }
        ensures further { IfOk result (λ e. IfNone e (
            IsFurther P.Packets packets.old packets.new source.old source.new self.old.tally self.new.tally)) }
    {
        match step {
            Step::Arrive(count) => self.arrive_some(under, sink, watch, packets, source, count),
            Step::Depart(count) => {
                self.depart_some(under, sink, watch, count)?;
                Ok(None)
            }
            Step::Rest => self.arrive_rest(under, sink, watch, packets, source),
            Step::Drain => {
                let held = self.scheduler.held();
                self.depart_some(under, sink, watch, held)?;
                Ok(None)
            }
        }
    }
}
