//! The packets of a capture up to the first with another link type.
ghost use Rattle.std.specs.Prelude.{◌≡◌, IfOk, IfErr, IsErrOf};
ghost use Rattle.outside_core.specs.Faults.{Rose};
ghost use Rattle.outside_core.specs.Kept.{KeepsShelf};
ghost use Rattle.sched_defs.specs.Packets.{StaysKnown};
ghost use Rattle.sched_capture.specs.CapturePackets as any;
ghost use Rattle.sched_capture.specs.Arrivals.{Begins, Refuses, AreCapturedIn};

use crate::capture_packets::CapturePackets;
use outside_core::{ReadError, Shelf};
use packet_core::Packet;
use packet_defs::BLANK;
use sched_defs::Packets;

/// The fault code of a packet with another link type than the first packet, after the codes of
/// capture faults. The fault's position (`place`) is the packet's number.
pub const OTHER_LINK: u32 = 20;

/// Reads the packets of a capture up to one with another link type than the first packet. The first
/// packet is read ahead.
#[derive(Drop)]
pub struct SingleLinkType<'a, S> {
    arrivals: CapturePackets<'a, S>,
    link: u16,
    ahead: Option<Packet>,
}

impl<'a, S: Shelf> SingleLinkType<'a, S> {
    ghost use Rattle.sched_capture.specs.SingleLinkType.{resolved_of, link_of, given_by, left_of, captures_of, IsReady};
    ghost use Rattle.sched_capture.specs.SingleLinkType.{EachFileOf, one_link_in, link_in};

    /// Reads the first packet ahead, if there is one.
    pub fn start(
        arrivals: CapturePackets<'a, S>,
        source: &mut S,
    ) -> Result<SingleLinkType<'a, S>, ReadError>
        requires none_given { any.given_by arrivals ≡ 0 }
        requires ready { any.IsReady arrivals (S.begun source.old) }

        ensures begins { IfOk result (λ o. EachFileOf (any.contents_of arrivals.entry
            (S.left source.old)) (λ file.
            Begins (any.resolved_of arrivals.entry) (one_link_in file) (left_of o (S.left source.new)))) }
        ensures captures { IfOk result (λ o. EachFileOf (any.contents_of arrivals.entry
            (S.left source.old)) (λ file.
            StaysKnown (AreCapturedIn (one_link_in file)) (captures_of o (S.left source.new)))) }
        ensures link { IfOk result (λ o. EachFileOf (any.contents_of arrivals.entry
            (S.left source.old)) (λ file.
            link_of o ≡ link_in file)) }
        ensures policy { IfOk result (λ o. resolved_of o ≡ any.resolved_of arrivals.entry) }
        ensures none_given { IfOk result (λ o. given_by o ≡ 0) }
        ensures ready { IfOk result (λ o. IsReady o (S.begun source.new)) }

        ensures refuses { IfErr result (λ error. EachFileOf (any.contents_of arrivals.entry
            (S.left source.old)) (λ file.
            Refuses error (one_link_in file))) }
        ensures kept { KeepsShelf S.lends S.content S.faults source.old source.new }
        ensures cause { IsErrOf result ReadError.Source → Rose (S.faults source.old)
            (S.faults source.new) }
    {
        let mut arrivals = arrivals;
        let mut first = BLANK;
        match arrivals.next_packet(source, &mut first) {
            Ok(Some(link)) => Ok(SingleLinkType {
                arrivals,
                link,
                ahead: Some(first),
            }),
            Ok(None) => Ok(SingleLinkType {
                arrivals,
                link: 0,
                ahead: None,
            }),
            Err(error) => Err(error),
        }
    }

    /// Returns the link type of the first packet, or 0 without a packet.
    pub fn link(&self) -> u16
        ensures { result ≡ link_of self.now }
    {
        self.link
    }
}

impl<'a, S: Shelf> Packets for SingleLinkType<'a, S> {
    type Source = S;

    ghost use Rattle.sched_capture.specs.SingleLinkType.{policy_of, given_by, captured_by, left_of, captures_of, there, IsReady};

    ghost policy = { policy_of };

    ghost given = { given_by };

    ghost left = { λ o shelf. left_of o (S.left shelf) };

    ghost captured = { captured_by };

    ghost captures = { λ o shelf. captures_of o (S.left shelf) };

    ghost ready = { λ o shelf. IsReady o (S.begun shelf) };

    ghost faults = { S.faults };

    fn next(&mut self, source: &mut S, packet: &mut Packet) -> Result<bool, ReadError> {
        if let Some(first) = self.ahead.take() {
            *packet = first;
            return Ok(true);
        }
        match self.arrivals.next_packet(source, packet) {
            Ok(Some(link)) if link == self.link => Ok(true),
            Ok(Some(_)) => Err(ReadError::Fault(OTHER_LINK, packet.number)),
            Ok(None) => Ok(false),
            Err(error) => Err(error),
        }
    }

    fn pass(&mut self, source: &mut S) -> Result<bool, ReadError> {
        let mut packet = BLANK;
        self.next(source, &mut packet)
    }

    fn captured(&self) -> &[u8] {
        self.arrivals.captured()
    }

    ghost there = { λ o shelf. there o (S.left shelf) };
}
