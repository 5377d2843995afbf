//! A generated load through the hardware's queues.
ghost use Rattle.std.specs.Prelude.{◌≡◌, ◌<◌, ◌≤◌, Some, IfOk, IfErr, OnOk, OnErr};
ghost use Rattle.outside_core.specs.Kept.{KeepsSink, HasSinkCause};
ghost use Rattle.sched_defs.specs.SourceState.{start};
ghost use Rattle.sched_run.specs.Load.{load_run};
ghost use Rattle.sched_run.specs.Played.{HasMade, HasMadeSome};
ghost use Rattle.sched_run.specs.Drawings.{HasLoadClasses, most_load};
ghost use Rattle.sched_embedded.specs.Fabrics.{Leaves, LeavesPart};
ghost use Rattle.sched_capture.specs.Placements.{laid_by, CanCount};
ghost use Rattle.sched_capture.specs.Loads.{load_counts, load_through};
ghost use Rattle.sched_capture.specs.Starts.{IsAtStart};

use crate::fabric::run_through;
use crate::laid::LaidPolicy;
use fabric_core::Fabric;
use outside_core::{Sink, Stop};
use policy_core::Policy;
use sched_core::Scheduler;
use sched_run::{DepartureSum, NameTable, Recorder, Run};
use std::alloc::Global;
use tap_core::{Named, Tap, Watching};

/// The counts of a load: the packets pushed, the packets popped, the departures that found no
/// packet, and the sum of the departed packets' numbers, folded into 32 bits.
#[derive(Clone, Copy, PartialEq, Eq, Debug)]
pub struct LoadCounts {
    pub pushed: u64,
    pub popped: u64,
    pub empty: u64,
    pub sum: u64,
}

/// A load: its seed, and the number of events drawn, at most 1,000,000.
#[derive(Clone, Copy, Debug)]
pub struct LoadSize {
    pub seed: u64,
    pub count: u64,
}

/// Makes the events of a generated load with any scheduler of this policy that represents the
/// start, and then departures until no packet is queued.
fn count_load<C: Scheduler + Drop, K: Sink>(
    policy: &Policy,
    run: &mut Run<C, NameTable<'_>, DepartureSum>,
    under: &mut C::Under,
    load: LoadSize,
    sink: &mut K,
    watch: &mut Watching<Box<dyn Tap>>,
) -> Result<LoadCounts, Stop>
    requires start { IsAtStart C.Scheduler ⟦<DepartureSum as Recorder>⟧ (λ p. p.policy)
        policy.now.policy run.old under.old }
    requires zero { run.old.recorder ≡ 0 }
    requires classes { HasLoadClasses policy.now.policy }
    requires short { load.count ≤ most_load }

    ensures counts { IfOk result (λ n. n ≡ load_counts policy.now.policy load) }
    ensures state { OnOk result (HasMade C.Scheduler policy.now.policy
        (load_run policy.now.policy load.seed load.count (start policy.now.policy)) (start policy.now.policy)
        run.old.scheduler under.old run.new.scheduler under.new) }
    ensures amid { OnErr result (HasMadeSome C.Scheduler policy.now.policy
        (load_run policy.now.policy load.seed load.count (start policy.now.policy)) (start policy.now.policy)
        run.old.scheduler under.old run.new.scheduler under.new) }
    ensures unwritten { K.written sink.new ≡ K.written sink.old }
    ensures kept { KeepsSink K.written K.faults sink.old sink.new }
    ensures cause { IfErr result (λ stop. HasSinkCause stop K.faults sink.old sink.new) }
{
    let totals = run.play_load(under, sink, watch, load.seed, load.count)?;
    Ok(LoadCounts {
        pushed: totals.pushed,
        popped: totals.popped,
        empty: totals.empty,
        sum: run.recorder().sum(),
    })
}

/// Makes the events of a generated load through a fabric into which a map lays the policy's tree,
/// and then departures until no packet is queued. Writes nothing. The error means out of memory.
pub fn soak<K: Sink, F: Fabric>(
    alloc: Global,
    laid: LaidPolicy,
    load: LoadSize,
    sink: &mut K,
    fabric: &mut F,
) -> Result<LoadCounts, Stop>
    requires classes { HasLoadClasses laid.policy.policy }
    requires short { load.count ≤ most_load }
    requires counts { CanCount F.Fabric fabric.old }

    ensures counts { IfOk result (λ n. n ≡ load_counts laid.policy.policy load) }
    ensures fabric { OnOk result (
        Leaves F.Fabric (Some (load_through laid.policy.policy (laid_by laid) load))
        fabric.old fabric.new) }
    ensures fabric_part { OnErr result (
        LeavesPart F.Fabric (Some (load_through laid.policy.policy (laid_by laid) load))
        fabric.old fabric.new) }
    ensures unwritten { K.written sink.new ≡ K.written sink.old }
    ensures kept { KeepsSink K.written K.faults sink.old sink.new }
    ensures cause { IfErr result (λ stop. HasSinkCause stop K.faults sink.old sink.new) }
{
    let (policy, target, map) = laid.into_parts();
    let sum = DepartureSum::new();
    let mut run = run_through(alloc, &policy, &target, map, sum, fabric)?;
    let mut watch: Watching<Box<dyn Tap>> = Watching::new(alloc, Named::none(), Vec::new(alloc));
    count_load(&policy, &mut run, fabric, load, sink, &mut watch)
}
