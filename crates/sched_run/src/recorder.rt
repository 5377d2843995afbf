//! The trait for recording the outcomes of a run.
ghost use Rattle.std.specs.Prelude.{◌≡◌, ◌≤◌, ℕ, Bool, Option, List, [], ◌∷◌, length, OnOk, OnErr};
ghost use Rattle.tree_defs.specs.Tree.{Address};
ghost use Rattle.pcap_defs.specs.Record.{most_captured};
ghost use Rattle.packet_defs.specs.declared.packet.Packet.{Packet};
ghost use Rattle.policy_defs.specs.Policy.{Policy, name_at};
ghost use Rattle.sched_defs.specs.Events as events;
ghost use Rattle.sched_defs.specs.Events.{Outcome};
ghost use Rattle.sched_defs.specs.Packets.{Captured};
ghost use Rattle.sched_run.specs.Recording.{AreJoined, KeepsRecord, KeepsArrival};
ghost use Rattle.sched_run.specs.Shown.{gone};

use outside_core::{Sink, Stop};
use packet_defs::{Departed, Packet};
use report_core::WriteFault;

/// Records the outcomes of a run one by one, each with its event number: as report lines, as
/// capture records, or in a sum. A recorder of capture records keeps the captured bytes of each
/// packet until it departs. No call but `arrived` allocates memory.
pub trait Recorder: Drop {
    /// With these captured bytes of packets, by packet number, consecutive outcomes are recorded.
    /// The first outcome has this event number.
    ghost records: { Captured → Self → Option (List ℕ) → Policy → ℕ → List Outcome → Self → Option (List ℕ) → Type 0 };

    /// Of the earlier records and the outcomes that were to follow, only a prefix is written.
    ghost cuts: { Captured → Self → Option (List ℕ) → Policy → ℕ → List Outcome → Option (List ℕ) → Type 0 };

    /// No call has failed so far.
    ghost live: { Self → Type 0 };

    /// Nothing more can be recorded, and the run has to end.
    ghost over: { Self → Bool };

    /// Records a packet that arrived at the leaf of this name. The ranks run from the root down.
    fn arrived<K: Sink>(
        &mut self,
        sink: &mut K,
        event: u64,
        packet: &Packet,
        captured: &[u8],
        leaf: &str,
        ranks: &[u64],
    ) -> Result<(), Stop>
        requires live { live self.old }
        requires short { length captured.now ≤ most_captured }
        requires leaf { length leaf.now ≤ 64 }
        requires few { length ranks.now ≤ 65 }

        ensures ok { OnOk result ((bytes : Captured) (policy : Policy) (a : Address) →
            bytes packet.now.number ≡ captured.now →
            leaf.now ≡ name_at policy a →
            records bytes self.old (K.written sink.old) policy event (events.Arrived packet.now a ranks.now ∷ [])
            self.new (K.written sink.new)) }
        ensures cut { OnErr result ((bytes : Captured) (policy : Policy) (a : Address) →
            bytes packet.now.number ≡ captured.now →
            leaf.now ≡ name_at policy a →
            cuts bytes self.old (K.written sink.old) policy event (events.Arrived packet.now a ranks.now ∷ [])
            (K.written sink.new)) }
        ensures keeps { KeepsArrival live K.Sink result self.new sink.old sink.new }
        ensures over { OnOk result (over self.new ≡ over self.old) };

    /// Records a packet that was dropped at the leaf of this name.
    fn dropped<K: Sink>(
        &mut self,
        sink: &mut K,
        event: u64,
        packet: &Packet,
        leaf: &str,
    ) -> Result<(), WriteFault>
        requires live { live self.old }
        requires leaf { length leaf.now ≤ 64 }

        ensures ok { OnOk result ((bytes : Captured) (policy : Policy) (a : Address) →
            leaf.now ≡ name_at policy a →
            records bytes self.old (K.written sink.old) policy event (events.Dropped packet.now a ∷ [])
            self.new (K.written sink.new)) }
        ensures cut { OnErr result ((bytes : Captured) (policy : Policy) (a : Address) →
            leaf.now ≡ name_at policy a →
            cuts bytes self.old (K.written sink.old) policy event (events.Dropped packet.now a ∷ []) (K.written sink.new)) }
        ensures keeps { KeepsRecord live K.Sink result self.new sink.old sink.new }
        ensures over { OnOk result (over self.new ≡ over self.old) };

    /// Records a packet that departed from the leaf of this name. The ranks are those popped, from
    /// the root down. `start` is the timestamp at which the departure starts, in nanoseconds, if a
    /// link paces it.
    fn departed<K: Sink>(
        &mut self,
        sink: &mut K,
        event: u64,
        departed: &Departed,
        leaf: &str,
        ranks: &[u64],
        start: Option<u128>,
    ) -> Result<(), WriteFault>
        requires live { live self.old }
        requires leaf { length leaf.now ≤ 64 }
        requires few { length ranks.now ≤ 65 }

        ensures ok { OnOk result ((bytes : Captured) (policy : Policy) (p : Packet) (a : Address) →
            departed.now ≡ gone policy p a → leaf.now ≡ name_at policy a →
            records bytes self.old (K.written sink.old) policy event (events.Departed p a ranks.now start ∷ [])
            self.new (K.written sink.new)) }
        ensures cut { OnErr result ((bytes : Captured) (policy : Policy) (p : Packet)
            (a : Address) →
            departed.now ≡ gone policy p a → leaf.now ≡ name_at policy a →
            cuts bytes self.old (K.written sink.old) policy event (events.Departed p a ranks.now start ∷ [])
            (K.written sink.new)) }
        ensures keeps { KeepsRecord live K.Sink result self.new sink.old sink.new };

    /// Records a departure from an empty scheduler.
    fn empty<K: Sink>(&mut self, sink: &mut K, event: u64) -> Result<(), WriteFault>
        requires live { live self.old }

        ensures ok { OnOk result ((bytes : Captured) (policy : Policy) →
            records bytes self.old (K.written sink.old) policy event (events.Empty ∷ []) self.new (K.written sink.new)) }
        ensures cut { OnErr result ((bytes : Captured) (policy : Policy) →
            cuts bytes self.old (K.written sink.old) policy event (events.Empty ∷ []) (K.written sink.new)) }
        ensures keeps { KeepsRecord live K.Sink result self.new sink.old sink.new };

    /// Returns whether nothing more can be recorded, so that the run has to end.
    fn over(&self) -> bool
        ensures { result ≡ over self.now };

    /// Outcomes recorded in two calls are recorded as if in one.
    ghost joined: { (bytes : Captured) → AreJoined (records bytes) (cuts bytes) };
}
