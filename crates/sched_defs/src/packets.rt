//! The trait of packets that arrive one by one.
ghost use Rattle.std.specs.Prelude.{◌≡◌, ℕ, true, false, Option, List, IfOk, IfErr, OnOk};
ghost use Rattle.policy_defs.specs.Policy.{Policy};
ghost use Rattle.sched_defs.specs.Packets.{Left, OneCame, Captured, StaysKnown, AreThere, IsReadError};
ghost use Rattle.sched_defs.specs.Packets.{IsNextPacket, HasEnded, MovesOn, CountsFaults};

use outside_core::ReadError;
use packet_defs::Packet;

/// Packets that arrive one by one, in the order of a capture.
pub trait Packets {
    /// The source from which the packets are read.
    type Source;

    /// The policy that gives each packet its class.
    ghost policy: { Self → Policy };

    /// How many packets have arrived.
    ghost given: { Self → ℕ };

    /// The packets still to arrive and the fault after them, if known to the contract.
    ghost left: { Self → Self.Source → Option Left };

    /// The captured bytes of the most recent packet, if it wasn't skipped.
    ghost captured: { Self → List ℕ };

    /// Holds of the captured bytes, by packet number, of the packets still to arrive.
    ghost captures: { Self → Self.Source → Captured → Type 0 };

    /// The precondition of a call.
    ghost ready: { Self → Self.Source → Type 0 };

    /// How many faults the source has had. The count has 64 bits and stays at its greatest value.
    ghost faults: { Self.Source → ℕ };

    /// Writes the next packet through `packet`, and returns whether one was left. It may be called
    /// again after the last packet, but not after an error.
    fn next(&mut self, source: &mut Self::Source, packet: &mut Packet) -> Result<bool, ReadError>
        requires ready { ready self.old source.old }

        ensures next { IfOk result (λ some. some ≡ true → IsNextPacket (policy self.old)
            (given self.old) (left self.old source.old) (left self.new source.new)
            (captures self.old source.old) packet.new (captured self.new)) }
        ensures known { OnOk result (StaysKnown (captures self.old source.old)
            (captures self.new source.new)) }
        ensures ended { IfOk result (λ some. some ≡ false →
            HasEnded (left self.old source.old) (left self.new source.new)) }
        ensures fault { IfErr result (λ error. IsReadError (left self.old source.old) error) }

        ensures moves { MovesOn result (given self.old) (given self.new)
            (ready self.new source.new) }
        ensures policy { policy self.new ≡ policy self.old }
        ensures source { CountsFaults result (faults source.old) (faults source.new) };

    /// Skips the next packet, and returns whether one was left. It may be called again after the
    /// last packet, but not after an error.
    fn pass(&mut self, source: &mut Self::Source) -> Result<bool, ReadError>
        requires ready { ready self.old source.old }

        ensures came { IfOk result (λ some. some ≡ true → OneCame (left self.old source.old)
            (left self.new source.new)) }
        ensures ended { IfOk result (λ some. some ≡ false →
            HasEnded (left self.old source.old) (left self.new source.new)) }
        ensures fault { IfErr result (λ error. IsReadError (left self.old source.old) error) }

        ensures moves { MovesOn result (given self.old) (given self.new)
            (ready self.new source.new) }
        ensures policy { policy self.new ≡ policy self.old }
        ensures source { CountsFaults result (faults source.old) (faults source.new) };

    /// Returns the captured bytes of the most recent packet, if it wasn't skipped.
    fn captured(&self) -> &[u8]
        ensures { result.now ≡ captured self.now };

    /// If the packets still to arrive are known, such captured bytes exist.
    ghost there: { (packets : Self) (source : Self.Source) → AreThere (left packets source) (captures packets source) };
}
