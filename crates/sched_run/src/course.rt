//! The course of a run, and the end of its report.
ghost use Rattle.std.specs.Prelude.{◌≡◌, [], IfOk, IfErr, IfSome, IsTrue, OnOk, OnErr};
ghost use Rattle.outside_core.specs.Faults.{Rose};
ghost use Rattle.outside_core.specs.Kept.{KeepsSink, HasSourceCause};
ghost use Rattle.outside_core.specs.Written.{Appended};
ghost use Rattle.report_core.specs.Gathered.{text_of, Tells, CutsOff};
ghost use Rattle.sched_defs.specs.Script.{at_end};
ghost use Rattle.sched_run.specs.Frames.{KeepsPackets};
ghost use Rattle.sched_run.specs.Totals.{totals_line};

use crate::departure::DepartureRecorder;
use crate::pace::Pace;
use crate::recorder::Recorder;
use crate::run::Run;
use crate::tally::{Tally, Totals};
use events_core::Step;
use outside_core::{ReadError, Sink, Stop};
use policy_defs::NodeNames;
use report_core::{FaultKind, Report, WriteFault};
use sched_core::Scheduler;
use sched_defs::{Ending, PAST_LAST, Packets};
use tap_core::{Tap, Watching};

/// Reads the packets that are left, and returns how the run ends after them.
fn count_unsent<P: Packets>(packets: &mut P, source: &mut P::Source) -> Result<Ending, Stop>
    requires ready { P.ready packets.old source.old }

    ensures told { IfOk result (λ e. IfSome (P.left packets.old source.old) (λ l. e ≡
        at_end l.fault l.packets)) }
    ensures kept { KeepsPackets P.Packets packets.old packets.new source.old source.new }
    ensures cause { IfErr result (λ stop. HasSourceCause stop P.faults source.old source.new) }
{
    let mut unsent = 0;
    loop {
        match packets.pass(source) {
            Ok(true) => unsent += 1,
            Ok(false) => return Ok(Ending::Whole(unsent)),
            Err(ReadError::Fault(code, place)) => return Ok(Ending::BadCapture(code, place)),
            Err(ReadError::Source) => return Err(Stop::Source),
            Err(ReadError::Memory) => return Err(Stop::Memory),
        }
    }
}

/// Adds the last line to the report.
fn last<K: Sink>(
    report: &mut Report,
    sink: &mut K,
    ending: Ending,
    totals: Totals,
) -> Result<(), WriteFault>
    requires live { IsTrue report.old.live }

    ensures ok { OnOk result (Tells K.written sink.old report.old sink.new report.new
        (totals_line totals ending)) }
    ensures cut { OnErr result (CutsOff K.written sink.old report.old sink.new
        (totals_line totals ending)) }
    ensures kept { KeepsSink K.written K.faults sink.old sink.new }
    ensures cause { OnErr result (Rose (K.faults sink.old) (K.faults sink.new)) }
    ensures live { OnOk result (IsTrue report.new.live) }
{
    match ending {
        Ending::Whole(unsent) => report.end(
            sink,
            totals.pushed,
            totals.popped,
            totals.empty,
            totals.held,
            unsent,
            totals.dropped,
        ),
        Ending::BadCapture(code, place) => report.fault(sink, FaultKind::Capture, code, place),
        Ending::PastLast(event) => report.fault(sink, FaultKind::Script, PAST_LAST, event),
    }
}

/// Writes the last line, and all text that the report still buffers.
fn close<K: Sink>(
    report: &mut Report,
    sink: &mut K,
    ending: Ending,
    totals: Totals,
) -> Result<(), WriteFault>
    requires live { IsTrue report.old.live }

    ensures ok { OnOk result (
        Appended (text_of (K.written sink.old) report.old) (K.written sink.new) (totals_line totals ending)) }
    ensures cut { OnErr result (CutsOff K.written sink.old report.old sink.new
        (totals_line totals ending)) }
    ensures kept { KeepsSink K.written K.faults sink.old sink.new }
    ensures cause { OnErr result (Rose (K.faults sink.old) (K.faults sink.new)) }
    ensures live { OnOk result (IsTrue report.new.live) }
    ensures none_left { OnOk result (report.new.unwritten ≡ []) }
{
    last(report, sink, ending, totals)?;
    report.finish(sink)
}

impl<C: Scheduler + Drop, N: NodeNames + Drop, W: DepartureRecorder> Run<C, N, W> {
    ghost use Rattle.std.specs.Prelude.{◌≡◌, ◌≤◌, true, false, IfOk, IfSome, IsNone, OnOk, OnErr};
    ghost use Rattle.events_core.specs.Script.{most_count};
    ghost use Rattle.events_core.specs.Steps.{counts_of};
    ghost use Rattle.sched_run.specs.RecordingKinds.{recording};
    ghost use Rattle.sched_run.specs.Frames.{IsSet, Stand, Feeds, CanBeginRun, KeepsPlay};
    ghost use Rattle.sched_run.specs.Stages.{stage_at, event_of, IsFresh, CanBegin, HasRoomFor};
    ghost use Rattle.sched_run.specs.Turns.{StopsAmid};
    ghost use Rattle.sched_run.specs.Courses.{script_agenda, course_of, Courses, CoursesUnless};
    ghost use Rattle.sched_run.specs.Steps.{IsBounded, CanEndSo};

    /// Makes the events of a script and records each, up to its end or until no more packets
    /// arrive.
    fn play_steps<P: Packets, K: Sink, T: Tap>(
        &mut self,
        under: &mut C::Under,
        sink: &mut K,
        watch: &mut Watching<T>,
        packets: &mut P,
        source: &mut P::Source,
        steps: &[Step],
    ) -> Result<Ending, Stop>
        requires set { IsSet C.Scheduler W.Recorder N.policy self.old }
        requires stands { Stand C.Scheduler self.old under.old (CanBegin (P.given packets.old)) }
        requires begins { CanBeginRun C.Scheduler P.Packets self.old packets.old source.old }
        requires short { counts_of steps.now ≤ most_count }

        ensures ok { IfOk result (λ e.
            Courses C.Scheduler (recording W.Recorder (P.captures packets.old source.old)) (C.policy self.old.scheduler)
            (script_agenda (C.policy self.old.scheduler) steps.now) e (P.left packets.old source.old)
            (stage_at K.Sink T.Tap self.old under.old sink.old (P.given packets.old) watch.old)
            (stage_at K.Sink T.Tap self.new under.new sink.new (P.given packets.new) watch.new)) }
        ensures err { OnErr result (
            StopsAmid C.Scheduler (recording W.Recorder (P.captures packets.old source.old)) (C.policy self.old.scheduler)
            (λ l s. (script_agenda (C.policy self.old.scheduler) steps.now l s (event_of self.old.tally)).events)
            (P.left packets.old source.old)
            (stage_at K.Sink T.Tap self.old under.old sink.old (P.given packets.old) watch.old)
            self.new.scheduler under.new (K.written sink.new)) }
        ensures keeps { KeepsPlay C.Scheduler W.Recorder P.Packets K.Sink T.Tap result self.old
            self.new packets.old packets.new source.old source.new sink.old sink.new
            watch.old watch.new }
    {
        for step in steps {
            let ending = self.play_step(under, sink, watch, packets, source, *step)?;
            if let Some(ending) = ending {
                return Ok(ending);
            }
        }
        count_unsent(packets, source)
    }

    /// Makes the events of a run and records each, up to its end or until no more packets arrive.
    /// Returns how the run ends, or `None` if it ended early because nothing more can be recorded.
    pub fn play_events<P: Packets, K: Sink, T: Tap>(
        &mut self,
        under: &mut C::Under,
        sink: &mut K,
        watch: &mut Watching<T>,
        packets: &mut P,
        source: &mut P::Source,
        pace: Pace<'_>,
    ) -> Result<Option<Ending>, Stop>
        requires set { IsSet C.Scheduler W.Recorder N.policy self.old }
        requires going { W.over self.old.recorder ≡ false }
        requires feeds { Feeds C.Scheduler P.Packets self.old packets.old source.old }
        requires stands { Stand C.Scheduler self.old under.old (CanBegin (P.given packets.old)) }
        requires counts { HasRoomFor C.Scheduler self.old (P.given packets.old) }
        requires fresh { IsFresh self.old.tally }
        requires bounded { IsBounded pace }

        ensures ok { IfOk result (λ e.
            CoursesUnless e C.Scheduler (recording W.Recorder (P.captures packets.old source.old)) W.over
            (C.policy self.old.scheduler)
            (course_of (C.policy self.old.scheduler) pace.entry) (P.left packets.old source.old)
            (stage_at K.Sink T.Tap self.old under.old sink.old (P.given packets.old) watch.old)
            (stage_at K.Sink T.Tap self.new under.new sink.new (P.given packets.new) watch.new)) }
        ensures err { OnErr result (
            StopsAmid C.Scheduler (recording W.Recorder (P.captures packets.old source.old)) (C.policy self.old.scheduler)
            (λ l s. (course_of (C.policy self.old.scheduler) pace.entry l s (event_of self.old.tally)).events)
            (P.left packets.old source.old)
            (stage_at K.Sink T.Tap self.old under.old sink.old (P.given packets.old) watch.old)
            self.new.scheduler under.new (K.written sink.new)) }
        ensures keeps { KeepsPlay C.Scheduler W.Recorder P.Packets K.Sink T.Tap result self.old
            self.new packets.old packets.new source.old source.new sink.old sink.new
            watch.old watch.new }
        ensures ends { IfOk result (λ o. IfSome o (CanEndSo pace.entry)) }
        ensures over { IfOk result (λ o. IsNone o → W.over self.new.recorder ≡ true) }
    {
        match pace {
            Pace::Script(steps) => {
                let ending = self.play_steps(under, sink, watch, packets, source, steps)?;
                Ok(Some(ending))
            }
            Pace::Link(rate) => self.play_link(under, sink, watch, packets, source, rate),
        }
    }
}

impl<C: Scheduler + Drop, N: NodeNames + Drop> Run<C, N, Report> {
    ghost use Rattle.std.specs.Prelude.{◌≡◌, [], IfOk, OnOk, OnErr};
    ghost use Rattle.report_core.specs.Gathered.{text_of};
    ghost use Rattle.sched_run.specs.Frames.{IsSet, Stand, Feeds, HasRoomToBegin, KeepsPlay};
    ghost use Rattle.sched_run.specs.Stages.{CanBegin};
    ghost use Rattle.tap_core.specs.Watching.{sight_of, Shows};
    ghost use Rattle.sched_defs.specs.Events.{outcomes};
    ghost use Rattle.sched_run.specs.Shown.{shown_in};
    ghost use Rattle.sched_run.specs.Courses.{course_of, OnCourse, Runs, Breaks};
    ghost use Rattle.sched_run.specs.Steps.{IsBounded, CanEndSo};

    /// Makes the events of a run over the packets of the source and writes a line for each. Shows
    /// each departure and each drop to the taps that watch, and writes the report to its end.
    /// Returns how the run ended. If it stops with an error, the text is cut short.
    pub fn play<P: Packets, K: Sink, T: Tap>(
        &mut self,
        under: &mut C::Under,
        sink: &mut K,
        watch: &mut Watching<T>,
        packets: &mut P,
        source: &mut P::Source,
        pace: Pace<'_>,
    ) -> Result<Ending, Stop>
        requires set { IsSet C.Scheduler ⟦<Report as Recorder>⟧ N.policy self.old }
        requires feeds { Feeds C.Scheduler P.Packets self.old packets.old source.old }
        requires stands { Stand C.Scheduler self.old under.old (CanBegin (P.given packets.old)) }
        requires room { HasRoomToBegin C.Scheduler self.old (P.given packets.old) }
        requires bounded { IsBounded pace }

        ensures ok { OnOk result (OnCourse C.stands (C.policy self.old.scheduler) self.old.scheduler
            under.old
            (P.given packets.old) (P.left packets.old source.old) (course_of (C.policy self.old.scheduler) pace.entry) (λ s run.
            Runs C.Scheduler (C.policy self.old.scheduler) run s self.old.scheduler under.old self.new.scheduler under.new
            (text_of (K.written sink.old) self.old.recorder) (K.written sink.new))) }
        ensures ending { IfOk result (λ e. OnCourse C.stands (C.policy self.old.scheduler)
            self.old.scheduler under.old
            (P.given packets.old) (P.left packets.old source.old) (course_of (C.policy self.old.scheduler) pace.entry)
            (λ s run. e ≡ run.ending)) }
        ensures err { OnErr result (OnCourse C.stands (C.policy self.old.scheduler)
            self.old.scheduler under.old
            (P.given packets.old) (P.left packets.old source.old) (course_of (C.policy self.old.scheduler) pace.entry) (λ s run.
            Breaks C.Scheduler (C.policy self.old.scheduler) run s self.old.scheduler under.old self.new.scheduler under.new
            (text_of (K.written sink.old) self.old.recorder) (K.written sink.new))) }
        ensures watched { OnOk result (OnCourse C.stands (C.policy self.old.scheduler)
            self.old.scheduler under.old
            (P.given packets.old) (P.left packets.old source.old)
            (course_of (C.policy self.old.scheduler) pace.entry) (λ s run.
            Shows (shown_in (C.policy self.old.scheduler) (outcomes (C.policy self.old.scheduler) run.events s))
            (sight_of T.kind_of T.state_of watch.old) (sight_of T.kind_of T.state_of watch.new))) }
        ensures keeps { KeepsPlay C.Scheduler ⟦<Report as Recorder>⟧ P.Packets K.Sink T.Tap result
            self.old self.new packets.old packets.new source.old source.new sink.old sink.new
            watch.old watch.new }
        ensures ends { IfOk result (CanEndSo pace.entry) }
        ensures none_left { OnOk result (self.new.recorder.unwritten ≡ []) }
    {
        let first = self.scheduler.held();
        self.tally = Tally::new();
        let played = self.play_events(under, sink, watch, packets, source, pace)?;
        let Some(ending) = played else { unreachable!() };
        let held = self.scheduler.held();
        let totals = self.tally.totals(first, held, self.version);
        close(&mut self.recorder, sink, ending, totals)?;
        Ok(ending)
    }
}
