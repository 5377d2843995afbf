//! The law of the relation between a scheduler, a fabric and a source state.
ghost use Rattle.sched_embedded.specs.Embedded.{FivePointsStand};

use fabric_core::Fabric;

/// Take a scheduler that represents some sound state with some fabric. It represents another sound
/// state with another fabric exactly if five points hold: the node states, the queued packets and
/// the timestamp are its own, and the fabric's shape, lift, pushes and pops agree.
pub fn five_points_stand<F: Fabric>()
    ensures law { FivePointsStand F.Fabric }
{}
