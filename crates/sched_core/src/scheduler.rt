//! The trait of schedulers that drive queues by a policy.
ghost use Rattle.std.specs.Prelude.{◌≡◌, ◌+◌, ℕ, false, Option, MatchResult, IfOk};
ghost use Rattle.tree_defs.specs.SourceTree.{size};
ghost use Rattle.policy_defs.specs.Policy.{Policy};
ghost use Rattle.sched_defs.specs.SourceState.{SourceState, arrival_ranks, is_full, arrived, departed};
ghost use Rattle.sched_defs.specs.Events.{CanArrive};
ghost use Rattle.sched_core.specs.Standing.{ForEach};
ghost use Rattle.sched_core.specs.Origins.{Origin, KeepsPolicy};
ghost use Rattle.sched_core.specs.Spills.{raised, spills_at};
ghost use Rattle.sched_core.specs.Arrivals.{arrival_of, pushes_of, WherePushed, LeavesPath, CanHandle, HasCounts};
ghost use Rattle.sched_core.specs.Departures.{IsDeparture, KeepsTrace};

use packet_defs::{Departed, Packet};
use std::alloc::AllocError;
use tree_core::Taken;

/// The outcome of an arrival, with the number of the leaf of the packet's class.
#[derive(Clone, Copy, PartialEq, Eq, Debug)]
pub enum Arrival {
    Pushed(u32),
    /// The packet would pass a limit on the path to its leaf.
    Dropped(u32),
}

/// A scheduler that drives queues by a policy. Another component owns the queues.
pub trait Scheduler {
    /// The component that owns the queues.
    type Under;

    /// The source states that the scheduler and its queues (`under`) represent.
    ghost stands: { Self → Self.Under → SourceState → Type 0 };

    /// How many packets were pushed.
    ghost pushes: { Self → ℕ };

    /// How many departures were asked for.
    ghost departures: { Self → ℕ };

    ghost policy: { Self → Policy };

    /// The position of the queues in a target, if they are in one.
    ghost origin: { Self → Option Origin };

    /// How often pushes into the queues spilled, if that is known to the contract.
    ghost spilled: { Self → Self.Under → Option ℕ };

    /// Handles the arrival of a packet. If it would pass a limit on the path to the leaf of its
    /// class, it is dropped: the latest timestamp may rise, and nothing else changes. Otherwise
    /// the push steps run from the root to that leaf, the packet is pushed with their ranks, and
    /// `trace` gets the leaf's address and the ranks. The error means out of memory. A drop needs
    /// no memory.
    fn arrive(
        &mut self,
        under: &mut Self::Under,
        packet: &Packet,
        trace: &mut Taken,
    ) -> Result<Arrival, AllocError>
        requires can { CanHandle stands policy self.old under.old (λ p s. CanArrive p s packet.now)
            trace.old (pushes self.old) }

        ensures state { MatchResult result (λ _. ForEach stands policy self.old under.old (λ p s.
            stands self.new under.new (arrived p packet.now s)))
            (λ _. ForEach stands policy self.old under.old (λ p s.
            stands self.new under.new s × (is_full p packet.now s ≡ false))) }
        ensures answer { IfOk result (λ a. ForEach stands policy self.old under.old (λ p s. a ≡
            arrival_of p packet.now s)) }
        ensures ranks { IfOk result (WherePushed (
            ForEach stands policy self.old under.old (λ p s. trace.new.ranks ≡ arrival_ranks p packet.now s))) }
        ensures path { LeavesPath (policy self.old) packet.now result under.old under.new trace.old
            trace.new }
        ensures spilled { MatchResult result (λ _. ForEach stands policy self.old under.old (λ p s.
            spilled self.new under.new ≡ raised (spilled self.old under.old) (spills_at (origin self.old) p packet.now s)))
            (λ _. spilled self.new under.new ≡ spilled self.old under.old) }
        ensures counts { HasCounts pushes departures self.new (pushes self.old + pushes_of result)
            (departures self.old) }
        ensures kept { KeepsPolicy policy origin self.old self.new };

    /// Dequeues the next packet, if one is queued. The packet is popped, and the pop steps run on
    /// its path with the ranks taken. `trace` gets the digits and these ranks. Takes no memory.
    fn depart(&mut self, under: &mut Self::Under, trace: &mut Taken) -> Option<Departed>
        requires can { CanHandle stands policy self.old under.old (λ _ _. Unit {0}) trace.old
            (departures self.old) }

        ensures state { ForEach stands policy self.old under.old (λ p s.
            stands self.new under.new (departed p s)) }
        ensures departs { ForEach stands policy self.old under.old (λ p s.
            IsDeparture p s result trace.new) }
        ensures trace { KeepsTrace result trace.old trace.new }
        ensures spilled { spilled self.new under.new ≡ spilled self.old under.old }
        ensures counts { HasCounts pushes departures self.new (pushes self.old)
            (departures self.old + 1) }
        ensures kept { KeepsPolicy policy origin self.old self.new };

    /// Returns how many packets are queued.
    fn held(&self) -> u64
        ensures { (under : Self.Under) → ForEach stands policy self.now under (λ _ s. result ≡
            size s.tree) };

    /// Returns the latest timestamp of the packets so far, in nanoseconds.
    fn now(&self) -> u64
        ensures { (under : Self.Under) → ForEach stands policy self.now under (λ _ s. result ≡
            s.now) };
}
