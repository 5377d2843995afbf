//! The events of a generated load.
ghost use Rattle.std.specs.Prelude.{◌≡◌};

use crate::departure::DepartureRecorder;
use crate::drawing::Drawing;
use crate::run::Run;
use crate::tally::{Tally, Totals};
use outside_core::{Sink, Stop};
use policy_defs::NodeNames;
use sched_core::Scheduler;
use tap_core::{Tap, Watching};

/// The most events that are drawn for a load.
pub const MOST_LOAD: u64 = 1_000_000;

impl<C: Scheduler + Drop, N: NodeNames + Drop, W: DepartureRecorder> Run<C, N, W> {
    ghost use Rattle.std.specs.Prelude.{◌≡◌, ◌≤◌, ◌+◌, ℕ, [], ◌∷◌, IfOk, OnOk, OnErr};
    ghost use Rattle.sched_defs.specs.Numbered.{IsHeldBelow};
    ghost use Rattle.sched_core.specs.Standing.{ForEachState};
    ghost use Rattle.sched_run.specs.RecordingKinds.{recording_none};
    ghost use Rattle.sched_run.specs.Frames.{IsSet, Stand, HasRoomForEither, HasRoomToBegin, KeepsShown};
    ghost use Rattle.sched_run.specs.Load.{first_drawing, load_event, load_events, load_next, load_run, MakesLoad};
    ghost use Rattle.sched_run.specs.Drawings.{HasLoadClasses, most_load, CanLoad, CanDraw};
    ghost use Rattle.sched_run.specs.Played.{StopsIn};
    ghost use Rattle.sched_run.specs.Stages.{stage_at, arrivals_in, IsFresh, CanBegin, Makes, Stops};

    /// Makes the next drawn event and records it.
    fn play_drawn<K: Sink, T: Tap>(
        &mut self,
        under: &mut C::Under,
        sink: &mut K,
        watch: &mut Watching<T>,
        drawing: &mut Drawing,
    ) -> Result<(), Stop>
        requires set { IsSet C.Scheduler W.Recorder N.policy self.old }
        requires stands { Stand C.Scheduler self.old under.old (λ s.
            IsHeldBelow drawing.old.number s.held) }
        requires draws { CanDraw (C.policy self.old.scheduler) drawing.old }
        requires room { HasRoomForEither C.Scheduler self.old }

        ensures ok { OnOk result ((given : ℕ) → drawing.old.number ≡ given + 1 →
            Makes C.Scheduler (recording_none W.Recorder) (C.policy self.old.scheduler) (load_event drawing.old ∷ [])
            (stage_at K.Sink T.Tap self.old under.old sink.old given watch.old)
            (stage_at K.Sink T.Tap self.new under.new sink.new (given + arrivals_in (load_event drawing.old ∷ []))
            watch.new)) }
        ensures err { OnErr result ((given : ℕ) → drawing.old.number ≡ given + 1 →
            Stops C.Scheduler (recording_none W.Recorder) (C.policy self.old.scheduler) (load_event drawing.old ∷ [])
            (stage_at K.Sink T.Tap self.old under.old sink.old given watch.old)
            self.new.scheduler under.new (K.written sink.new)) }
        ensures next { drawing.new ≡ load_next drawing.old }
        ensures keeps { KeepsShown C.Scheduler W.Recorder K.Sink T.Tap result self.old self.new
            sink.old sink.new watch.old watch.new }
    {
        match drawing.draw() {
            Some(packet) => self.make_arrival(under, sink, watch, &packet, &[]),
            None => {
                self.depart_next(under, sink, watch, None)?;
                Ok(())
            }
        }
    }

    /// Makes `count` events that are drawn from a seed, and records each.
    fn play_drawings<K: Sink, T: Tap>(
        &mut self,
        under: &mut C::Under,
        sink: &mut K,
        watch: &mut Watching<T>,
        seed: u64,
        count: u64,
    ) -> Result<(), Stop>
        requires set { IsSet C.Scheduler W.Recorder N.policy self.old }
        requires stands { Stand C.Scheduler self.old under.old (CanBegin 0) }
        requires loads { CanLoad (C.policy self.old.scheduler) count }
        requires room { HasRoomToBegin C.Scheduler self.old 0 }
        requires fresh { IsFresh self.old.tally }

        ensures ok { OnOk result (
            Makes C.Scheduler (recording_none W.Recorder) (C.policy self.old.scheduler) (load_events count (first_drawing seed))
            (stage_at K.Sink T.Tap self.old under.old sink.old 0 watch.old)
            (stage_at K.Sink T.Tap self.new under.new sink.new (arrivals_in (load_events count (first_drawing seed)))
            watch.new)) }
        ensures err { OnErr result (
            Stops C.Scheduler (recording_none W.Recorder) (C.policy self.old.scheduler) (load_events count (first_drawing seed))
            (stage_at K.Sink T.Tap self.old under.old sink.old 0 watch.old)
            self.new.scheduler under.new (K.written sink.new)) }
        ensures keeps { KeepsShown C.Scheduler W.Recorder K.Sink T.Tap result self.old self.new
            sink.old sink.new watch.old watch.new }
    {
        let mut drawing = Drawing::new(seed);
        for _drawn in 0..count {
            self.play_drawn(under, sink, watch, &mut drawing)?;
        }
        Ok(())
    }

    /// Makes the events of a generated load: `count` events drawn from a seed, at most 1,000,000,
    /// and then departures until no packet is queued. Records each, and shows departures and drops
    /// to the taps that watch. Returns the totals.
    pub fn play_load<K: Sink, T: Tap>(
        &mut self,
        under: &mut C::Under,
        sink: &mut K,
        watch: &mut Watching<T>,
        seed: u64,
        count: u64,
    ) -> Result<Totals, Stop>
        requires set { IsSet C.Scheduler W.Recorder N.policy self.old }
        requires stands { Stand C.Scheduler self.old under.old (CanBegin 0) }
        requires classes { HasLoadClasses (C.policy self.old.scheduler) }
        requires room { HasRoomToBegin C.Scheduler self.old 0 }
        requires short { count ≤ most_load }

        ensures ok { IfOk result (λ t.
            ForEachState C.stands (C.policy self.old.scheduler) self.old.scheduler under.old (λ s.
            IsHeldBelow 1 s.held →
            MakesLoad C.Scheduler (recording_none W.Recorder) (C.policy self.old.scheduler) seed count s
            self.old.scheduler under.old self.old.recorder (K.written sink.old)
            self.new.scheduler under.new self.new.recorder (K.written sink.new) t)) }
        ensures err { OnErr result (ForEachState C.stands (C.policy self.old.scheduler)
            self.old.scheduler under.old (λ s.
            IsHeldBelow 1 s.held → StopsIn C.Scheduler (recording_none W.Recorder) (C.policy self.old.scheduler) 1
            (load_run (C.policy self.old.scheduler) seed count s) s
            self.old.scheduler under.old self.old.recorder (K.written sink.old) self.new.scheduler under.new (K.written sink.new))) }
        ensures keeps { KeepsShown C.Scheduler W.Recorder K.Sink T.Tap result self.old self.new
            sink.old sink.new watch.old watch.new }
    {
        let first = self.scheduler.held();
        self.tally = Tally::new();
        self.play_drawings(under, sink, watch, seed, count)?;
        let waiting = self.scheduler.held();
        self.depart_some(under, sink, watch, waiting)?;
        let held = self.scheduler.held();
        Ok(self.tally.totals(first, held, self.version))
    }

    /// Returns the recorder of the outcomes.
    pub fn recorder(&self) -> &W
        ensures { result.now ≡ self.now.recorder }
    {
        &self.recorder
    }
}
