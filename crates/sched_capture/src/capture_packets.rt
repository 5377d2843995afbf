//! The packets of a capture of either format, one by one.
ghost use Rattle.std.specs.Prelude.{◌≡◌, ◌+◌, true, false, is_some, if◌then◌else◌, IfOk, IfErr, IfSome, IfNone, OnOk, IsErrOf, IsTrue};
ghost use Rattle.outside_core.specs.Faults.{Rose};
ghost use Rattle.outside_core.specs.Kept.{KeepsShelf};
ghost use Rattle.pcap_core.specs.Captures.{Opens, IsOneLess, StopsAt};
ghost use Rattle.pcap_core.specs.Held.{held};
ghost use Rattle.pcap_core.specs.Rest.{rest_of};
ghost use Rattle.pcapng_defs.specs.NgContents.{in_file};
ghost use Rattle.sched_capture.specs.Arrivals.{Begins, Refuses};
ghost use Rattle.sched_capture.specs.NextPacket.{IsNext, IsEnd, KeepsSource};

use outside_core::{ReadError, Shelf};
use packet_core::{Classifier, Packet};
use pcap_core::{CaptureReader, HEADER_LEN, Reader, Window, is_newer};
use pcapng_core::NgReader;
use policy_core::Policy;
use sched_defs::Packets;
use std::alloc::Global;
use std::marker::PhantomData;

/// Reads the packets of a capture in order, each with its own link type and the class that a policy
/// gives it. Holds the captured bytes of one packet at a time, at most 262,144, and reads nothing
/// after the end of the capture.
#[derive(Drop)]
pub struct Arrivals<'a, R, S> {
    classifier: Classifier<'a>,
    reader: R,
    bytes: Vec<u8>,
    over: bool,
    shelf: PhantomData<S>,
}

impl<'a, R: CaptureReader + Drop, S: Shelf> Arrivals<'a, R, S> {
    ghost use Rattle.sched_capture.specs.Arrivals.{resolved_of, given_by, captured_by, contents_of, IsReady};

    /// Reads the beginning of a file: the bytes already in the window, then the bytes left of the
    /// begun file.
    pub fn start(
        alloc: Global,
        policy: &'a Policy,
        window: Window,
        shelf: &mut S,
    ) -> Result<Arrivals<'a, R, S>, ReadError>
        requires begun { IsTrue (S.begun shelf.old) }

        ensures opens { IfOk result (λ a. IfSome (rest_of (held window) (S.left shelf.old)) (λ file.
            Opens (R.contents file) (contents_of R.left a (S.left shelf.new)))) }
        ensures policy { IfOk result (λ a. resolved_of a ≡ policy.now) }
        ensures none_given { IfOk result (λ a. given_by R.given a ≡ 0) }
        ensures ready { IfOk result (λ a. IsReady R.ready R.given a (S.begun shelf.new)) }

        ensures refuses { IfErr result (λ error.
            IfSome (rest_of (held window) (S.left shelf.old)) (λ file. Refuses error (R.contents file))) }
        ensures begun { IsTrue (S.begun shelf.new) }
        ensures kept { KeepsShelf S.lends S.content S.faults shelf.old shelf.new }
        ensures cause { IsErrOf result ReadError.Source → Rose (S.faults shelf.old)
            (S.faults shelf.new) }
    {
        let mut reader = R::over(alloc, window);
        reader.start(shelf)?;
        Ok(Arrivals {
            classifier: Classifier::new(alloc, policy)?,
            reader,
            bytes: Vec::new(alloc),
            over: false,
            shelf: PhantomData,
        })
    }

    /// Writes the next packet, if one is left, through an out-parameter, and returns its link type.
    /// May be called again after `None`, but not after an error.
    #[inline(always)]
    pub fn next_packet(
        &mut self,
        source: &mut S,
        packet: &mut Packet,
    ) -> Result<Option<u16>, ReadError>
        requires ready { IsReady R.ready R.given self.old (S.begun source.old) }

        ensures next { IfOk result (λ o. IfSome o (λ link. IsNext (resolved_of self.old)
            (given_by R.given self.old)
            (contents_of R.left self.old (S.left source.old)) (contents_of R.left self.new (S.left source.new))
            link packet.new (captured_by R.captured_of self.new))) }
        ensures ended { IfOk result (λ o. IfNone o (IsEnd
            (contents_of R.left self.old (S.left source.old)) (contents_of R.left self.new (S.left source.new)))) }
        ensures fault { IfErr result (StopsAt (contents_of R.left self.old (S.left source.old))) }

        ensures given { IfOk result (λ o. given_by R.given self.new ≡ given_by R.given self.old +
            (if is_some o then 1 else 0)) }
        ensures ready { OnOk result (IsReady R.ready R.given self.new (S.begun source.new)) }
        ensures policy { resolved_of self.new ≡ resolved_of self.old }
        ensures keeps { KeepsSource S.Shelf result source.old source.new }
    {
        if self.over {
            return Ok(None);
        }
        match self.reader.next_in_place(source, &mut self.bytes)? {
            Some(read) => {
                let captured = self.reader.captured(&self.bytes);
                packet.number = read.frame.number;
                packet.len = read.frame.len;
                packet.moment = read.frame.moment;
                self.classifier.classify(read.link, captured, packet);
                Ok(Some(read.link))
            }
            None => {
                self.over = true;
                Ok(None)
            }
        }
    }

    /// Skips the next packet, and returns whether one was left. May be called again after `false`,
    /// but not after an error.
    pub fn pass(&mut self, source: &mut S) -> Result<bool, ReadError>
        requires ready { IsReady R.ready R.given self.old (S.begun source.old) }

        ensures comes { IfOk result (λ some. some ≡ true → IsOneLess
            (contents_of R.left self.old (S.left source.old)) (contents_of R.left self.new (S.left source.new))) }
        ensures ended { IfOk result (λ some. some ≡ false → IsEnd
            (contents_of R.left self.old (S.left source.old)) (contents_of R.left self.new (S.left source.new))) }
        ensures fault { IfErr result (StopsAt (contents_of R.left self.old (S.left source.old))) }

        ensures given { IfOk result (λ some. given_by R.given self.new ≡ given_by R.given self.old +
            (if some then 1 else 0)) }
        ensures ready { OnOk result (IsReady R.ready R.given self.new (S.begun source.new)) }
        ensures policy { resolved_of self.new ≡ resolved_of self.old }
        ensures keeps { KeepsSource S.Shelf result source.old source.new }
    {
        if self.over {
            return Ok(false);
        }
        let some = self.reader.pass(source, &mut self.bytes)?;
        self.over = !some;
        Ok(some)
    }
}

/// Reads the packets of a capture in the format with which its file begins.
#[derive(Drop)]
pub enum CapturePackets<'a, S> {
    /// The packets of a classic capture.
    Classic(Arrivals<'a, Reader, S>),
    /// The packets of a pcapng capture.
    Blocks(Arrivals<'a, NgReader, S>),
}

impl<'a, S: Shelf> CapturePackets<'a, S> {
    ghost use Rattle.sched_capture.specs.CapturePackets.{resolved_of, given_by, captured_by, contents_of, left_of, IsReady};

    /// Begins the file of this name, detects its format by its first bytes, and reads its
    /// beginning.
    pub fn open(
        alloc: Global,
        policy: &'a Policy,
        shelf: &mut S,
        name: &str,
    ) -> Result<CapturePackets<'a, S>, ReadError>
        requires lent { IsTrue (S.lends shelf.old name.now) }

        ensures opens { IfOk result (λ a. IfSome (S.content shelf.old name.now) (λ file.
            Opens (in_file file) (contents_of a (S.left shelf.new)))) }
        ensures begins { IfOk result (λ a. IfSome (S.content shelf.old name.now) (λ file.
            Begins policy.now (in_file file) (left_of a (S.left shelf.new)))) }
        ensures policy { IfOk result (λ a. resolved_of a ≡ policy.now) }
        ensures none_given { IfOk result (λ a. given_by a ≡ 0) }
        ensures ready { IfOk result (λ a. IsReady a (S.begun shelf.new)) }

        ensures refuses { IfErr result (λ error. IfSome (S.content shelf.old name.now) (λ file.
            Refuses error (in_file file))) }
        ensures kept { KeepsShelf S.lends S.content S.faults shelf.old shelf.new }
        ensures cause { IsErrOf result ReadError.Source → Rose (S.faults shelf.old)
            (S.faults shelf.new) }
    {
        shelf.begin(name)?;
        Self::start(alloc, policy, shelf)
    }

    /// Reads the beginning of the begun file. The window with the first bytes passes to the reader.
    fn start(
        alloc: Global,
        policy: &'a Policy,
        shelf: &mut S,
    ) -> Result<CapturePackets<'a, S>, ReadError>
        requires begun { IsTrue (S.begun shelf.old) }

        ensures opens { IfOk result (λ a. IfSome (S.left shelf.old) (λ file.
            Opens (in_file file) (contents_of a (S.left shelf.new)))) }
        ensures policy { IfOk result (λ a. resolved_of a ≡ policy.now) }
        ensures none_given { IfOk result (λ a. given_by a ≡ 0) }
        ensures ready { IfOk result (λ a. IsReady a (S.begun shelf.new)) }

        ensures refuses { IfErr result (λ error. IfSome (S.left shelf.old) (λ file.
            Refuses error (in_file file))) }
        ensures kept { KeepsShelf S.lends S.content S.faults shelf.old shelf.new }
        ensures cause { IsErrOf result ReadError.Source → Rose (S.faults shelf.old)
            (S.faults shelf.new) }
    {
        let mut window = Window::new(alloc);
        window.hold(shelf, HEADER_LEN)?;
        if is_newer(window.front()) {
            let arrivals = Arrivals::start(alloc, policy, window, shelf)?;
            Ok(CapturePackets::Blocks(arrivals))
        } else {
            let arrivals = Arrivals::start(alloc, policy, window, shelf)?;
            Ok(CapturePackets::Classic(arrivals))
        }
    }

    /// Writes the next packet, if one is left, through an out-parameter, and returns its link type.
    /// May be called again after `None`, but not after an error.
    #[inline(always)]
    pub fn next_packet(
        &mut self,
        source: &mut S,
        packet: &mut Packet,
    ) -> Result<Option<u16>, ReadError>
        requires ready { IsReady self.old (S.begun source.old) }

        ensures next { IfOk result (λ o. IfSome o (λ link. IsNext (resolved_of self.old)
            (given_by self.old)
            (contents_of self.old (S.left source.old)) (contents_of self.new (S.left source.new))
            link packet.new (captured_by self.new))) }
        ensures ended { IfOk result (λ o. IfNone o (IsEnd
            (contents_of self.old (S.left source.old)) (contents_of self.new (S.left source.new)))) }
        ensures fault { IfErr result (StopsAt (contents_of self.old (S.left source.old))) }

        ensures given { IfOk result (λ o. given_by self.new ≡ given_by self.old +
            (if is_some o then 1 else 0)) }
        ensures ready { OnOk result (IsReady self.new (S.begun source.new)) }
        ensures policy { resolved_of self.new ≡ resolved_of self.old }
        ensures keeps { KeepsSource S.Shelf result source.old source.new }
    {
        match self {
            CapturePackets::Classic(arrivals) => arrivals.next_packet(source, packet),
            CapturePackets::Blocks(arrivals) => arrivals.next_packet(source, packet),
        }
    }
}

impl<'a, S: Shelf> Packets for CapturePackets<'a, S> {
    type Source = S;

    ghost use Rattle.sched_capture.specs.CapturePackets.{policy_of, given_by, captured_by, left_of, captures_of, there, IsReady};

    ghost policy = { policy_of };

    ghost given = { given_by };

    ghost left = { λ a shelf. left_of a (S.left shelf) };

    ghost captured = { captured_by };

    ghost captures = { λ a shelf. captures_of a (S.left shelf) };

    ghost ready = { λ a shelf. IsReady a (S.begun shelf) };

    ghost faults = { S.faults };

    #[inline(always)]
    fn next(&mut self, source: &mut S, packet: &mut Packet) -> Result<bool, ReadError> {
        match self {
            CapturePackets::Classic(arrivals) => Ok(
                arrivals.next_packet(source, packet)?.is_some(),
            ),
            CapturePackets::Blocks(arrivals) => Ok(arrivals.next_packet(source, packet)?.is_some()),
        }
    }

    fn pass(&mut self, source: &mut S) -> Result<bool, ReadError> {
        match self {
            CapturePackets::Classic(arrivals) => arrivals.pass(source),
            CapturePackets::Blocks(arrivals) => arrivals.pass(source),
        }
    }

    #[inline(always)]
    fn captured(&self) -> &[u8] {
        match self {
            CapturePackets::Classic(arrivals) => arrivals.reader.captured(&arrivals.bytes),
            CapturePackets::Blocks(arrivals) => arrivals.reader.captured(&arrivals.bytes),
        }
    }

    ghost there = { λ a shelf. there a (S.left shelf) };
}
