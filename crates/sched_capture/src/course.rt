//! A run over the packets of a capture with any scheduler.
ghost use Rattle.std.specs.Prelude.{◌≡◌, [], IfOk, IfSome, OnOk, OnErr};
ghost use Rattle.sched_defs.specs.SourceState.{start};
ghost use Rattle.sched_defs.specs.Events.{outcomes};
ghost use Rattle.sched_capture.specs.CapturePackets.{left_of};
ghost use Rattle.sched_run.specs.Courses.{course_of};
ghost use Rattle.sched_run.specs.Frames.{Continues};
ghost use Rattle.sched_run.specs.Steps.{pace_of, IsBounded, CanEndSo};
ghost use Rattle.sched_run.specs.Played.{HasMade, HasMadeSome};
ghost use Rattle.sched_run.specs.Shown.{shown_in};
ghost use Rattle.sched_capture.specs.Answers.{answer_of};
ghost use Rattle.tap_core.specs.Watching.{sight_of, Watches, AreNoMore};
ghost use Rattle.sched_capture.specs.Starts.{IsAtStart, AreUnread};
ghost use Rattle.sched_capture.specs.Outside.{IsReported, KeepsOutside};

use crate::capture_packets::CapturePackets;
use outside_core::{Shelf, Sink, Stop};
use policy_core::Policy;
use report_core::Report;
use sched_core::Scheduler;
use sched_defs::Ending;
use sched_run::{NameTable, Pace, Recorder, Run};
use tap_core::{Tap, Watching};

/// Runs the packets of a capture through any scheduler of this policy that represents the start,
/// and writes the report. Taps watch from the beginning of the run.
pub fn run_over<C: Scheduler + Drop, S: Shelf, K: Sink, T: Tap>(
    policy: &Policy,
    run: &mut Run<C, NameTable<'_>, Report>,
    under: &mut C::Under,
    pace: Pace<'_>,
    packets: &mut CapturePackets<'_, S>,
    shelf: &mut S,
    sink: &mut K,
    watch: &mut Watching<T>,
) -> Result<Ending, Stop>
    requires start { IsAtStart C.Scheduler ⟦<Report as Recorder>⟧ (λ p. p.policy)
        policy.now.policy run.old under.old }
    requires fresh { run.old.recorder.unwritten ≡ [] }
    requires unread { AreUnread policy.now.policy packets.old (S.begun shelf.old) }
    requires bounded { IsBounded pace }

    ensures report { IfSome (left_of packets.old (S.left shelf.old)) (λ l.
        IsReported result (answer_of policy.now.policy (pace_of pace.entry) l.packets l.fault)
        (K.written sink.old) (K.written sink.new)) }
    ensures ends { IfOk result (CanEndSo pace.entry) }
    ensures state { OnOk result (IfSome (left_of packets.old (S.left shelf.old)) (λ l.
        HasMade C.Scheduler policy.now.policy
        (course_of policy.now.policy pace.entry l (start policy.now.policy) 1).events (start policy.now.policy)
        run.old.scheduler under.old run.new.scheduler under.new)) }
    ensures amid { OnErr result (IfSome (left_of packets.old (S.left shelf.old)) (λ l.
        HasMadeSome C.Scheduler policy.now.policy
        (course_of policy.now.policy pace.entry l (start policy.now.policy) 1).events (start policy.now.policy)
        run.old.scheduler under.old run.new.scheduler under.new)) }
    ensures watched { OnOk result (IfSome (left_of packets.old (S.left shelf.old)) (λ l.
        Watches (shown_in policy.now.policy (outcomes policy.now.policy
        (course_of policy.now.policy pace.entry l (start policy.now.policy) 1).events (start policy.now.policy)))
        (sight_of T.kind_of T.state_of watch.old) (sight_of T.kind_of T.state_of watch.new))) }
    ensures fewer { AreNoMore (sight_of T.kind_of T.state_of watch.old)
        (sight_of T.kind_of T.state_of watch.new) }
    ensures kept_run { Continues C.Scheduler run.old run.new }
    ensures outside { KeepsOutside result S.faults shelf.old shelf.new K.written K.faults sink.old
        sink.new }
{
    watch.begin()?;
    run.play(under, sink, watch, packets, shelf, pace)
}
