//! The command `soak`: a generated load and its line.
ghost use Rattle.std.specs.Prelude.{◌≡◌, ◌++◌, ◌<◌, ◌≤◌, IfErr, IfOk, OnOk, OnErr, IsErrOf};
ghost use Rattle.outside_core.specs.Faults.{Rose};
ghost use Rattle.outside_core.specs.Written.{Appended, AppendedPrefix};
ghost use Rattle.policy_core.specs.Office.{office_lines};
ghost use Rattle.policy_rules.specs.Resolved.{IsResolved};
ghost use Rattle.sched_embedded.specs.Fabrics.{Leaves, LeavesPart};
ghost use Rattle.sched_run.specs.Drawings.{most_load};
ghost use Rattle.replay_app.specs.Answer.{IsDone, IsTold};
ghost use Rattle.replay_app.specs.Soak.{IsSoaked, counted, soak_line, soak_target};
ghost use Rattle.replay_app.specs.Targets.{IsPlacement};
ghost use Rattle.tree_defs.specs.Topology.{topology_of};
ghost use Rattle.sched_capture.specs.Placements.{CanCount};

use crate::laying::lay;
use crate::not_run::NotRun;
use crate::status::Status;
use crate::writing::write;
use embed_core::Target;
use fabric_core::Fabric;
use list_core::List;
use outside_core::{Sink, Stop};
use policy_core::Policy;
use sched_capture::{LaidPolicy, LoadCounts, LoadSize, soak};
use std::alloc::{AllocError, Global};
use text_core::put_decimal;

/// Appends a label and its count, with a space before each. Fails if out of memory.
fn put_count(into: &mut Vec<u8>, word: &str, count: u64) -> Result<(), AllocError>
    ensures { OnOk result (into.new.items ≡ into.old.items ++ counted word.now count) }
{
    into.push(b' ')?;
    into.extend_from_slice(word.as_bytes())?;
    into.push(b' ')?;
    put_decimal(into, count as u128)
}

/// Appends the line of a load. Fails if out of memory.
fn put_line(into: &mut Vec<u8>, counts: LoadCounts) -> Result<(), AllocError>
    ensures { OnOk result (into.new.items ≡ into.old.items ++ soak_line counts) }
{
    into.extend_from_slice(b"soak")?;
    put_count(into, "pushed", counts.pushed)?;
    put_count(into, "popped", counts.popped)?;
    put_count(into, "empty", counts.empty)?;
    put_count(into, "sum", counts.sum)?;
    into.extend_from_slice(b"\n")
}

/// Writes the line of a load.
fn write_counts<K: Sink>(alloc: Global, counts: LoadCounts, sink: &mut K) -> Result<(), Stop>
    ensures text { OnOk result (Appended (K.written sink.old) (K.written sink.new)
        (soak_line counts)) }
    ensures part { OnErr result (AppendedPrefix (K.written sink.old) (K.written sink.new)
        (soak_line counts)) }
    ensures sink_cause { IsErrOf result Stop.Sink → Rose (K.faults sink.old) (K.faults sink.new) }
    ensures sink_later { K.faults sink.old ≤ K.faults sink.new }
    ensures reads_nothing { IsErrOf result Stop.Source → ⊥ }
{
    let mut line = Vec::new(alloc);
    put_line(&mut line, counts)?;
    write(alloc, &line, sink)
}

/// Returns a target of three levels of arity 4. Fails if out of memory.
fn target(alloc: Global) -> Result<Target, AllocError>
    ensures { IfOk result (λ t. t ≡ soak_target) }
{
    let arities = List::from_vec(Vec::from_slice(alloc, &[4, 4, 4])?);
    Ok(Target { arities, above: 4 })
}

/// Lays the office policy into that target, which has room for it.
fn lay_office(alloc: Global) -> Result<LaidPolicy, Stop>
    ensures office { IfOk result (λ l. IsResolved office_lines l.policy) }
    ensures target { IfOk result (λ l. l.target ≡ soak_target) }
    ensures map { IfOk result (λ l. IsPlacement (topology_of l.policy.policy.tree) l.target l.map) }
    ensures memory { IfErr result (λ stop. stop ≡ Stop.Memory) }
{
    let policy = Policy::office(alloc)?;
    let target = target(alloc)?;
    match lay(alloc, policy, target) {
        Ok(laid) => Ok(laid),
        Err(NotRun::Rejected(_)) => unreachable!(),
        Err(NotRun::Stopped(stop)) => Err(stop),
    }
}

/// Runs a load through the fabric under the office policy, and writes its line. The policy's tree
/// is embedded into a target of three levels of arity 4.
pub fn soak_load<K: Sink, F: Fabric>(
    alloc: Global,
    load: LoadSize,
    sink: &mut K,
    fabric: &mut F,
) -> Result<Status, Stop>
    requires short { load.count ≤ most_load }
    requires counts { CanCount F.Fabric fabric.old }

    ensures status { IfOk result (λ s. s ≡ Status.Done) }
    ensures answer { IsTold (IsSoaked load) result (K.written sink.old) (K.written sink.new) }
    ensures left { IsDone (IsSoaked load) result
        (λ a. Leaves F.Fabric a.run fabric.old fabric.new) (λ a. LeavesPart F.Fabric a.run fabric.old fabric.new) }
    ensures sink_cause { IsErrOf result Stop.Sink → Rose (K.faults sink.old) (K.faults sink.new) }
    ensures sink_later { K.faults sink.old ≤ K.faults sink.new }
    ensures reads_nothing { IsErrOf result Stop.Source → ⊥ }
{
    let laid = lay_office(alloc)?;
    let counts = soak(alloc, laid, load, sink, fabric)?;
    write_counts(alloc, counts, sink)?;
    Ok(Status::Done)
}
