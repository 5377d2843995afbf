//! Departures that are recorded.
ghost use Rattle.std.specs.Prelude.{◌≡◌, None, [], ◌∷◌, OnOk, OnErr};
ghost use Rattle.sched_defs.specs.Events.{Depart, outcomes};
ghost use Rattle.sched_core.specs.Standing.{ForEachState};
ghost use Rattle.sched_run.specs.declared.departure.Departure.{Departure};
ghost use Rattle.sched_run.specs.RecordingKinds.{recording_any};
ghost use Rattle.sched_run.specs.Played.{Departs};
ghost use Rattle.sched_run.specs.Recording.{KeepsRecord};
ghost use Rattle.sched_run.specs.Frames.{CanDepart};

use crate::recorder::Recorder;
use outside_core::Sink;
use packet_defs::Departed;
use policy_defs::NodeNames;
use report_core::WriteFault;
use sched_core::Scheduler;
use tree_core::Taken;

/// A departure to make: its event number, and its start in nanoseconds if a link paces it.
#[derive(Clone, Copy, Debug)]
pub struct Departure {
    pub event: u64,
    pub start: Option<u128>,
}

/// What names a departure to make: its event number, as in a script, or the whole `Departure`.
pub trait IntoDeparture {
    /// The departure that it names.
    ghost departure: { Self → Departure };

    /// Returns the departure that it names.
    fn into_departure(self) -> Departure
        ensures { result ≡ departure self };
}

impl IntoDeparture for u64 {
    ghost departure = { λ event. record { event = event; start = None } };

    #[inline(always)]
    fn into_departure(self) -> Departure {
        Departure {
            event: self,
            start: None,
        }
    }
}

impl IntoDeparture for Departure {
    ghost departure = { λ departure. departure };

    #[inline(always)]
    fn into_departure(self) -> Departure {
        self
    }
}

/// Makes the departures of a run and records them. It is a trait of its own because its contract
/// cites `Recorder` as a whole.
pub trait DepartureRecorder: Recorder {
    /// Makes a departure and records it. Allocates no memory.
    #[inline(always)]
    fn depart<C: Scheduler, N: NodeNames, K: Sink>(
        &mut self,
        names: &N,
        scheduler: &mut C,
        under: &mut C::Under,
        trace: &mut Taken,
        sink: &mut K,
        departure: Departure,
    ) -> Result<Option<Departed>, WriteFault>
        requires can { CanDepart C.Scheduler Self.live (N.policy names.now) scheduler.old
            under.old trace.old self.old }

        ensures departs { Departs C.Scheduler result scheduler.old under.old trace.old scheduler.new
            under.new trace.new }
        ensures recorded { OnOk result (ForEachState C.stands (C.policy scheduler.old) scheduler.old
            under.old (λ s.
            (recording_any Self.Recorder).records self.old (K.written sink.old) (C.policy scheduler.old) departure.event
            (outcomes (C.policy scheduler.old) (Depart departure.start ∷ []) s) self.new (K.written sink.new))) }
        ensures cut { OnErr result (ForEachState C.stands (C.policy scheduler.old) scheduler.old
            under.old (λ s.
            (recording_any Self.Recorder).cuts self.old (K.written sink.old) (C.policy scheduler.old) departure.event
            (outcomes (C.policy scheduler.old) (Depart departure.start ∷ []) s) (K.written sink.new))) }
        ensures keeps { KeepsRecord Self.live K.Sink result self.new sink.old sink.new }
    {
        let Departure { event, start } = departure;
        match scheduler.depart(under, trace) {
            Some(departed) => {
                let leaf = names.name(departed.leaf);
                self.departed(sink, event, &departed, leaf, trace.ranks(), start)?;
                Ok(Some(departed))
            }
            None => {
                self.empty(sink, event)?;
                Ok(None)
            }
        }
    }
}
