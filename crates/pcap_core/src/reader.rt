//! Reads a capture record by record.
ghost use Rattle.std.specs.Prelude.{◌≡◌, ◌≤◌, ◌<◌, ◌+◌, ◌^◌, ◌↔◌, ℕ, true, false, List, Option, Some, None, [], length, vec_len, IfOk, IfErr, OnOk, OnErr, IfSome, IfNone, OnSome, IsErrOf, IsErr, IsTrue, IsFalse};
ghost use Rattle.outside_core.specs.Faults.{Rose};
ghost use Rattle.outside_core.specs.Kept.{KeepsShelf};
ghost use Rattle.pcap_defs.specs.Fault.{Fault};
ghost use Rattle.pcap_defs.specs.Header.{IsHeaderFault};
ghost use Rattle.pcap_defs.specs.Record.{Record, IsRecordFault, most_captured, most_records};
ghost use Rattle.pcap_core.specs.Faults.{fault_in, read_error_as};
ghost use Rattle.pcap_core.specs.Frames.{IsFrameOf, IsNextFrame, IsInLimits};
ghost use Rattle.pcap_core.specs.Held.{held, bytes_taken};
ghost use Rattle.pcap_core.specs.Rest.{rest_of, HasEnded, Serves};
ghost use Rattle.pcap_core.specs.Pieces.{TakesHeader, TakesNext, TakesPreface, TakesRecord};

use crate::capture_reader::CaptureReader;
use crate::fault::CaptureFault;
use crate::frame::{Frame, LinkedFrame};
use crate::header::{HEADER_LEN, RECORD_LEN, RecordHeader, checked_record_header_in, head_in};
use crate::window::Window;
use outside_core::{ReadError, Shelf};
use pcap_defs::Head;
use std::alloc::Global;

/// Reads the file header.
fn read_head<S: Shelf>(
    alloc: Global,
    window: &mut Window,
    shelf: &mut S,
) -> Result<Head, CaptureFault>
    requires begun { IsTrue (S.begun shelf.old) }
    ensures header { IfOk result (λ head.
        TakesHeader head (rest_of (held window.old) (S.left shelf.old))
        (rest_of (held window.new) (S.left shelf.new))) }
    ensures fault { IfErr result (λ e. IfSome (fault_in e) (λ fault.
        IfSome (rest_of (held window.old) (S.left shelf.old)) (λ file. IsHeaderFault file fault))) }
    ensures shelf { Serves S.lends S.content S.begun S.faults shelf.old shelf.new }
    ensures cause { IsErrOf result CaptureFault.ReadFault → Rose (S.faults shelf.old)
        (S.faults shelf.new) }
{
    let mut bytes = Vec::new(alloc);
    window.take_anew(shelf, &mut bytes, HEADER_LEN)?;
    head_in(&bytes)
}

/// Reads the header of the next record, after `count` records. If the window has all of it, it is
/// parsed in place.
fn read_record_header<S: Shelf>(
    head: Head,
    count: u32,
    window: &mut Window,
    shelf: &mut S,
    scratch: &mut Vec<u8>,
) -> Result<Option<RecordHeader>, CaptureFault>
    requires begun { IsTrue (S.begun shelf.old) }
    ensures told { IfOk result (λ o. IfSome o (λ preface.
        TakesPreface head preface (rest_of (held window.old) (S.left shelf.old))
        (rest_of (held window.new) (S.left shelf.new)))) }
    ensures limits { IfOk result (λ o. IfSome o (IsInLimits count)) }
    ensures ended { IfOk result (λ o. IfNone o (HasEnded
        (rest_of (held window.old) (S.left shelf.old))
        (rest_of (held window.new) (S.left shelf.new)))) }
    ensures fault { IfErr result (λ e. IfSome (fault_in e) (λ fault.
        IfSome (rest_of (held window.old) (S.left shelf.old)) (λ left.
        IsRecordFault head.big count left fault))) }
    ensures shelf { Serves S.lends S.content S.begun S.faults shelf.old shelf.new }
    ensures cause { IsErrOf result CaptureFault.ReadFault → Rose (S.faults shelf.old)
        (S.faults shelf.new) }
{
    let front = window.front();
    if front.len() >= RECORD_LEN {
        let preface = checked_record_header_in(head, count, &front[..RECORD_LEN])?;
        window.advance(RECORD_LEN);
        return Ok(Some(preface));
    }
    window.take_anew(shelf, scratch, RECORD_LEN)?;
    if scratch.is_empty() {
        return Ok(None);
    }
    Ok(Some(checked_record_header_in(head, count, scratch)?))
}

/// Reads the next record, after `count` records. Its captured bytes are those that were taken last:
/// in the window, or else in `into`.
fn read_record<S: Shelf>(
    head: Head,
    count: u32,
    window: &mut Window,
    shelf: &mut S,
    into: &mut Vec<u8>,
) -> Result<Option<Frame>, CaptureFault>
    requires begun { IsTrue (S.begun shelf.old) }
    ensures next { IfOk result (λ o. IfSome o (λ frame.
        TakesNext head.big head.nano count frame (bytes_taken window.new into.new.items)
        (rest_of (held window.old) (S.left shelf.old))
        (rest_of (held window.new) (S.left shelf.new)))) }
    ensures ended { IfOk result (λ o. IfNone o (HasEnded
        (rest_of (held window.old) (S.left shelf.old))
        (rest_of (held window.new) (S.left shelf.new)))) }
    ensures fault { IfErr result (λ e. IfSome (fault_in e) (λ fault.
        IfSome (rest_of (held window.old) (S.left shelf.old)) (λ left.
        IsRecordFault head.big count left fault))) }
    ensures shelf { Serves S.lends S.content S.begun S.faults shelf.old shelf.new }
    ensures cause { IsErrOf result CaptureFault.ReadFault → Rose (S.faults shelf.old)
        (S.faults shelf.new) }
{
    let Some(preface) = read_record_header(head, count, window, shelf, into)? else {
        return Ok(None);
    };
    let captured = preface.captured as usize;
    let taken = window.take_in_place(shelf, into, captured)?;
    let number = u64::from(count) + 1;
    if taken < captured {
        return Err(CaptureFault::DataCut(number));
    }
    Ok(Some(Frame {
        number,
        moment: preface.moment,
        captured: preface.captured,
        len: preface.len,
    }))
}

/// Skips the next record, after `count` records, and returns whether there was one.
fn pass_record<S: Shelf>(
    head: Head,
    count: u32,
    window: &mut Window,
    shelf: &mut S,
    scratch: &mut Vec<u8>,
) -> Result<bool, CaptureFault>
    requires begun { IsTrue (S.begun shelf.old) }
    ensures found { IfOk result (λ some. some ≡ true → (r : Record)
        × TakesRecord head.big r (rest_of (held window.old) (S.left shelf.old))
        (rest_of (held window.new) (S.left shelf.new))) }
    ensures few { IfOk result (λ some. some ≡ true → count < most_records) }
    ensures ended { IfOk result (λ some. some ≡ false →
        HasEnded (rest_of (held window.old) (S.left shelf.old))
        (rest_of (held window.new) (S.left shelf.new))) }
    ensures fault { IfErr result (λ e. IfSome (fault_in e) (λ fault.
        IfSome (rest_of (held window.old) (S.left shelf.old)) (λ left.
        IsRecordFault head.big count left fault))) }
    ensures shelf { Serves S.lends S.content S.begun S.faults shelf.old shelf.new }
    ensures cause { IsErrOf result CaptureFault.ReadFault → Rose (S.faults shelf.old)
        (S.faults shelf.new) }
{
    let Some(preface) = read_record_header(head, count, window, shelf, scratch)? else {
        return Ok(false);
    };
    let captured = preface.captured as usize;
    let passed = window.pass(shelf, captured)?;
    if passed < captured {
        return Err(CaptureFault::DataCut(u64::from(count) + 1));
    }
    Ok(true)
}

/// Reads a capture record by record. It buffers at most 65,536 bytes that were read but not
/// consumed.
#[derive(Drop)]
pub struct Reader {
    alloc: Global,
    window: Window,
    head: Option<Head>,
    records: u32,
    live: bool,
}

impl Reader {
    ghost use Rattle.std.specs.Prelude.{◌≡◌, ◌≤◌, ◌<◌, ◌+◌, ◌^◌, ◌↔◌, ℕ, true, false, List, Option, Some, None, [], length, vec_len, IfOk, IfErr, OnOk, OnErr, IfSome, IfNone, OnSome, IsErrOf, IsErr, IsOk, IsSome, IsTrue, IsFalse, MatchResult, is_some, if◌then◌else◌};
    ghost use Rattle.outside_core.specs.Faults.{Rose};
    ghost use Rattle.outside_core.specs.Kept.{KeepsShelf};
    ghost use Rattle.pcap_defs.specs.Fault.{Fault};
    ghost use Rattle.pcap_defs.specs.Header.{IsHeaderFault};
    ghost use Rattle.pcap_defs.specs.Record.{Record, IsRecordFault, most_captured, most_records};
    ghost use Rattle.pcap_core.specs.Faults.{fault_in};
    ghost use Rattle.pcap_core.specs.Frames.{IsFrameOf, IsNextFrame, IsInLimits};
    ghost use Rattle.pcap_core.specs.Held.{held};
    ghost use Rattle.pcap_core.specs.Limits.{most_held};
    ghost use Rattle.pcap_core.specs.Rest.{rest_of, Serves};
    ghost use Rattle.pcap_core.specs.Pieces.{TakesHeader, TakesNext, TakesRecord};
    ghost use Rattle.pcap_core.specs.Left.{head_read};
    ghost use Rattle.pcap_core.specs.Readers.{head_of, is_big, is_nano, records_given, bytes_held, captured_of, is_live, IsFresh, IsReady, rest_left, StopsRightly, Counts};

    /// Returns a reader without buffered bytes.
    pub fn new(alloc: Global) -> Reader
        ensures fresh { IsFresh result }
        ensures none_held { bytes_held result ≡ [] }
    {
        Reader::over(alloc, Window::new(alloc))
    }

    /// Returns a reader of a window's bytes and then of the rest of the open file.
    pub fn over(alloc: Global, window: Window) -> Reader
        ensures fresh { IsFresh result }
        ensures held { bytes_held result ≡ held window }
    {
        Reader {
            alloc,
            window,
            head: None,
            records: 0,
            live: true,
        }
    }

    /// Returns whether no call has returned an error.
    pub fn live(&self) -> bool
        ensures { result ≡ is_live self.now }
    {
        self.live
    }

    /// Returns the link type in the header, or 0 before the header is read.
    pub fn link(&self) -> u16
        ensures { result ≡ (head_read (head_of self.now)).link }
    {
        match self.head {
            Some(head) => head.link,
            None => 0,
        }
    }

    /// Reads the file header: from the buffered bytes, and then from the open file.
    pub fn start<S: Shelf>(&mut self, shelf: &mut S) -> Result<Head, CaptureFault>
        requires fresh { IsFresh self.old }
        requires begun { IsTrue (S.begun shelf.old) }

        ensures header { IfOk result (λ head.
            TakesHeader head (rest_left self.old (S.left shelf.old))
            (rest_left self.new (S.left shelf.new))) }
        ensures head { IfOk result (λ head. head_of self.new ≡ Some head) }
        ensures none_given { records_given self.new ≡ 0 }
        ensures bounded { length (bytes_held self.new) ≤ most_held }

        // A returned fault is that of the header. If the header has a fault, an error is returned.
        ensures fault { IfErr result (λ e. IfSome (fault_in e) (λ fault.
            IfSome (rest_left self.old (S.left shelf.old)) (λ file. IsHeaderFault file fault))) }
        ensures refused { IfSome (rest_left self.old (S.left shelf.old)) (λ file.
            (fault : Fault) → IsHeaderFault file fault → IsErr result) }
        ensures live { IsTrue (is_live self.new) ↔ IsOk result }

        ensures shelf { Serves S.lends S.content S.begun S.faults shelf.old shelf.new }
        ensures cause { IsErrOf result CaptureFault.ReadFault →
            Rose (S.faults shelf.old) (S.faults shelf.new) }
    {
        match read_head(self.alloc, &mut self.window, shelf) {
            Ok(head) => {
                self.head = Some(head);
                Ok(head)
            }
            Err(fault) => {
                self.live = false;
                Err(fault)
            }
        }
    }

    /// Reads the next record, or finds its fault. It is a call of its own to keep `next_in_place`
    /// short.
    #[cold]
    #[inline(never)]
    fn read_next<S: Shelf>(
        &mut self,
        shelf: &mut S,
        into: &mut Vec<u8>,
    ) -> Result<Option<Frame>, CaptureFault>
        requires ready { IsReady self.old }
        requires begun { IsTrue (S.begun shelf.old) }
        ensures next { IfOk result (λ o. IfSome o (λ frame.
            TakesNext (is_big self.old) (is_nano self.old) (records_given self.old) frame
            (captured_of self.new into.new.items) (rest_left self.old (S.left shelf.old))
            (rest_left self.new (S.left shelf.new)))) }
        ensures stops { StopsRightly is_some (is_big self.old) (records_given self.old) result
            (rest_left self.old (S.left shelf.old)) (rest_left self.new (S.left shelf.new)) }
        ensures counts { Counts is_some result self.old self.new }
        ensures shelf { Serves S.lends S.content S.begun S.faults shelf.old shelf.new }
        ensures cause { IsErrOf result CaptureFault.ReadFault →
            Rose (S.faults shelf.old) (S.faults shelf.new) }
    {
        let Some(head) = self.head else {
            unreachable!()
        };
        match read_record(head, self.records, &mut self.window, shelf, into) {
            Ok(Some(frame)) => {
                self.records += 1;
                Ok(Some(frame))
            }
            Ok(None) => Ok(None),
            Err(fault) => {
                self.live = false;
                Err(fault)
            }
        }
    }

    /// Reads the next record, and replaces the contents of `into` by its captured bytes.
    pub fn next<S: Shelf>(
        &mut self,
        shelf: &mut S,
        into: &mut Vec<u8>,
    ) -> Result<Option<Frame>, CaptureFault>
        requires ready { IsReady self.old }
        requires begun { IsTrue (S.begun shelf.old) }

        // The remaining bytes were the spelling of a record, and then the bytes left now.
        ensures found { IfOk result (λ o. IfSome o (λ frame.
            (r : Record) × IsFrameOf (is_nano self.old) r frame into.new.items
            × TakesRecord (is_big self.old) r (rest_left self.old (S.left shelf.old))
            (rest_left self.new (S.left shelf.new)))) }
        ensures next { IfOk result (λ o. IfSome o (λ frame.
            IsNextFrame (records_given self.old) frame into.new.items)) }

        // There is no record exactly if nothing is left, and then nothing is left for a later call.
        // A returned fault is that of the remaining bytes. If they have one, an error is returned.
        ensures stops { StopsRightly is_some (is_big self.old) (records_given self.old) result
            (rest_left self.old (S.left shelf.old)) (rest_left self.new (S.left shelf.new)) }
        ensures counts { Counts is_some result self.old self.new }
        ensures shelf { Serves S.lends S.content S.begun S.faults shelf.old shelf.new }
        ensures cause { IsErrOf result CaptureFault.ReadFault →
            Rose (S.faults shelf.old) (S.faults shelf.new) }
    {
        let Some(frame) = self.read_next(shelf, into)? else {
            return Ok(None);
        };
        if self.window.copy_taken(into).is_err() {
            self.live = false;
            return Err(CaptureFault::NoMemory);
        }
        Ok(Some(frame))
    }

    /// Skips the next record, and returns whether there was one, or finds its fault. It is a call of
    /// its own to keep `pass` short.
    #[cold]
    #[inline(never)]
    fn pass_next<S: Shelf>(
        &mut self,
        shelf: &mut S,
        scratch: &mut Vec<u8>,
    ) -> Result<bool, CaptureFault>
        requires ready { IsReady self.old }
        requires begun { IsTrue (S.begun shelf.old) }

        // The remaining bytes were the spelling of a record, and then the bytes left now.
        ensures found { IfOk result (λ some. some ≡ true → (r : Record)
            × TakesRecord (is_big self.old) r (rest_left self.old (S.left shelf.old))
            (rest_left self.new (S.left shelf.new))) }
        ensures few { IfOk result (λ some. some ≡ true → records_given self.new ≤ most_records) }

        // There is no record exactly if nothing is left, and then nothing is left for a later call.
        // A returned fault is that of the remaining bytes. If they have one, an error is returned.
        ensures stops { StopsRightly (λ some. some) (is_big self.old) (records_given self.old)
            result (rest_left self.old (S.left shelf.old)) (rest_left self.new (S.left shelf.new)) }
        ensures counts { Counts (λ some. some) result self.old self.new }
        ensures shelf { Serves S.lends S.content S.begun S.faults shelf.old shelf.new }
        ensures cause { IsErrOf result CaptureFault.ReadFault →
            Rose (S.faults shelf.old) (S.faults shelf.new) }
    {
        let Some(head) = self.head else {
            unreachable!()
        };
        match pass_record(head, self.records, &mut self.window, shelf, scratch) {
            Ok(true) => {
                self.records += 1;
                Ok(true)
            }
            Ok(false) => Ok(false),
            Err(fault) => {
                self.live = false;
                Err(fault)
            }
        }
    }
}

/// Converts an error of this reader to the error type shared by all capture formats.
fn read_error(fault: CaptureFault) -> ReadError
    ensures { result ≡ read_error_as fault }
{
    match fault {
        CaptureFault::ReadFault => ReadError::Source,
        CaptureFault::NoMemory => ReadError::Memory,
        _ => ReadError::Fault(fault.code(), fault.place()),
    }
}

impl CaptureReader for Reader {
    ghost use Rattle.pcap_defs.specs.Reading.{capture_of};
    ghost use Rattle.pcap_defs.specs.Contents.{in_capture};
    ghost use Rattle.pcap_core.specs.Readers.{is_live, records_given, bytes_held, captured_of, IsFresh, IsReady};
    ghost use Rattle.pcap_core.specs.Left.{contents_left};

    ghost contents = { λ file. in_capture (capture_of file) };

    ghost left = { contents_left };

    ghost given = { records_given };

    ghost is_live = { is_live };

    ghost ahead = { bytes_held };

    ghost captured_of = { captured_of };

    ghost fresh = { IsFresh };

    ghost ready = { IsReady };

    fn over(alloc: Global, window: Window) -> Reader {
        Reader::over(alloc, window)
    }

    fn live(&self) -> bool {
        Reader::live(self)
    }

    fn start<S: Shelf>(&mut self, shelf: &mut S) -> Result<(), ReadError> {
        match Reader::start(self, shelf) {
            Ok(_) => Ok(()),
            Err(fault) => Err(read_error(fault)),
        }
    }

    #[inline(always)]
    fn next_in_place<S: Shelf>(
        &mut self,
        shelf: &mut S,
        into: &mut Vec<u8>,
    ) -> Result<Option<LinkedFrame>, ReadError> {
        let Some(head) = self.head else {
            unreachable!()
        };
        if let Some(frame) = self.window.take_record(head, self.records) {
            self.records += 1;
            return Ok(Some(LinkedFrame {
                frame,
                link: head.link,
            }));
        }
        match self.read_next(shelf, into) {
            Ok(Some(frame)) => Ok(Some(LinkedFrame {
                frame,
                link: head.link,
            })),
            Ok(None) => Ok(None),
            Err(fault) => Err(read_error(fault)),
        }
    }

    #[inline(always)]
    fn captured<'b>(&'b self, copied: &'b [u8]) -> &'b [u8] {
        self.window.taken(copied)
    }

    fn pass<S: Shelf>(&mut self, shelf: &mut S, scratch: &mut Vec<u8>) -> Result<bool, ReadError> {
        let Some(head) = self.head else {
            unreachable!()
        };
        if self.window.take_record(head, self.records).is_some() {
            self.records += 1;
            return Ok(true);
        }
        match self.pass_next(shelf, scratch) {
            Ok(some) => Ok(some),
            Err(fault) => Err(read_error(fault)),
        }
    }
}
