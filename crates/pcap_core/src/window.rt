//! The bytes of a file that were read but not consumed.
ghost use Rattle.std.specs.Prelude.{◌≤◌, vec_len};
ghost use Rattle.pcap_core.specs.Limits.{most_held};

use crate::frame::Frame;
use crate::header::{RECORD_LEN, record_header_in};
use outside_core::{Shelf, ShelfError};
use pcap_defs::Head;
use std::alloc::{AllocError, Global};

/// The most bytes that are read at once and kept.
const WINDOW_LEN: usize = 65_536;

/// Bytes that were read but not consumed.
#[derive(Drop)]
pub struct Window {
    buffer: Vec<u8>,
    at: usize,
    end: usize,
    /// How many bytes before `at` the last call of `take_in_place` took, or `None` if it copied
    /// them.
    in_place: Option<usize>,
    ghost within: { at ≤ end },
    ghost inside: { end ≤ vec_len buffer },
    ghost bounded: { vec_len buffer ≤ most_held },
}

impl Window {
    ghost use Rattle.std.specs.Prelude.{◌≡◌, ◌≢◌, ◌+◌, ◌-◌, ◌<◌, ◌≤◌, ◌==◌, [], ◌++◌, List, ℕ, Option, Some, None, length, min, take, drop, vec_len, IfOk, IfErr, IfSome, IfNone, OnOk, OnErr, IsTrue, IsErrOf};
    ghost use Rattle.outside_core.specs.Faults.{Rose};
    ghost use Rattle.pcap_core.specs.Rest.{rest_of, TakesFront, IsWhole, IsShort, Serves};
    ghost use Rattle.pcap_core.specs.Held.{held, bytes_taken};
    ghost use Rattle.pcap_core.specs.Limits.{most_held};
    ghost use Rattle.pcap_core.specs.Passed.{Passes, IsAll};
    ghost use Rattle.pcap_core.specs.Pieces.{TakesNext};

    /// Returns an empty window.
    pub fn new(alloc: Global) -> Window
        ensures { held result ≡ [] }
    {
        Window {
            buffer: Vec::new(alloc),
            at: 0,
            end: 0,
            in_place: None,
        }
    }

    /// Returns the bytes of the window.
    pub fn front(&self) -> &[u8]
        ensures { result.now ≡ held self.now }
    {
        &self.buffer[self.at..self.end]
    }

    fn is_empty(&self) -> bool
        ensures { result ≡ (length (held self.now) == 0) }
    {
        self.at == self.end
    }

    /// Allocates the buffer, if that wasn't done yet.
    fn open(&mut self) -> Result<(), AllocError>
        ensures room { OnOk result (0 < vec_len self.new.buffer) }
        ensures held { held self.new ≡ held self.old }
    {
        if self.buffer.is_empty() {
            self.buffer.resize(WINDOW_LEN, 0)?;
        }
        Ok(())
    }

    /// Reads the next bytes of the file into an empty window.
    fn fill<S: Shelf>(&mut self, shelf: &mut S) -> Result<(), ShelfError>
        requires empty { held self.old ≡ [] }
        requires begun { IsTrue (S.begun shelf.old) }
        ensures same { TakesFront (rest_of (held self.old) (S.left shelf.old))
            (rest_of (held self.new) (S.left shelf.new)) [] }
        ensures end { OnOk result (held self.new ≡ [] →
            IsWhole (rest_of (held self.old) (S.left shelf.old))) }
        ensures shelf { Serves S.lends S.content S.begun S.faults shelf.old shelf.new }
        ensures cause { IsErrOf result ShelfError.Failed → Rose (S.faults shelf.old)
            (S.faults shelf.new) }
    {
        self.open()?;
        self.at = 0;
        self.end = 0;
        self.end = shelf.read(&mut self.buffer)?;
        Ok(())
    }

    /// Reads more bytes of the file after those of the window, and returns how many. Returns 0 only
    /// if nothing is left.
    fn read_on<S: Shelf>(&mut self, shelf: &mut S) -> Result<usize, ShelfError>
        requires room { self.old.end < vec_len self.old.buffer }
        requires begun { IsTrue (S.begun shelf.old) }
        ensures same { TakesFront (rest_of (held self.old) (S.left shelf.old))
            (rest_of (held self.new) (S.left shelf.new)) [] }
        ensures more { IfOk result (λ n. self.new.end ≡ self.old.end + n) }
        ensures kept { self.new.at ≡ self.old.at }
        ensures room { vec_len self.new.buffer ≡ vec_len self.old.buffer }
        ensures end { IfOk result (λ n. n ≡ 0 →
            IfSome (rest_of (held self.old) (S.left shelf.old)) (λ left. left ≡ held self.new)) }
        ensures shelf { Serves S.lends S.content S.begun S.faults shelf.old shelf.new }
        ensures cause { IsErrOf result ShelfError.Failed → Rose (S.faults shelf.old)
            (S.faults shelf.new) }
    {
        let count = shelf.read(&mut self.buffer[self.end..])?;
        self.end += count;
        Ok(count)
    }

    /// Reads until the window has `count` bytes, or all remaining bytes if there are fewer.
    pub fn hold<S: Shelf>(&mut self, shelf: &mut S, count: usize) -> Result<(), ShelfError>
        requires empty { held self.old ≡ [] }
        requires room { count ≤ most_held }
        requires begun { IsTrue (S.begun shelf.old) }
        ensures same { OnOk result (TakesFront (rest_of (held self.old) (S.left shelf.old))
            (rest_of (held self.new) (S.left shelf.new)) []) }
        ensures short { OnOk result (IsShort (rest_of (held self.old) (S.left shelf.old))
            (held self.new) count) }
        ensures shelf { Serves S.lends S.content S.begun S.faults shelf.old shelf.new }
        ensures cause { IsErrOf result ShelfError.Failed → Rose (S.faults shelf.old)
            (S.faults shelf.new) }
    {
        self.buffer.resize(WINDOW_LEN, 0)?;
        self.at = 0;
        self.end = 0;
        while self.end < count {
            if self.read_on(shelf)? == 0 {
                break;
            }
        }
        Ok(())
    }

    /// Appends bytes of the window to `into` until it has `most` bytes or the window is empty.
    fn copy(&mut self, into: &mut Vec<u8>, most: usize) -> Result<(), AllocError>
        requires { vec_len into.old ≤ most }
        ensures moved { OnOk result (into.new.items ++ held self.new ≡
            into.old.items ++ held self.old) }
        ensures count { OnOk result (length into.new.items
            ≡ min most (length into.old.items + length (held self.old))) }
        ensures err { OnErr result (into.new.items ++ held self.new ≡
            into.old.items ++ held self.old) }
    {
        let count = (self.end - self.at).min(most - into.len());
        into.extend_from_slice(&self.buffer[self.at..self.at + count])?;
        self.at += count;
        Ok(())
    }

    /// Appends one piece, from the window or newly read, unless nothing is left.
    fn copy_more<S: Shelf>(
        &mut self,
        shelf: &mut S,
        into: &mut Vec<u8>,
        most: usize,
    ) -> Result<(), ShelfError>
        requires room { vec_len into.old < most }
        requires begun { IsTrue (S.begun shelf.old) }
        ensures taken { OnOk result (TakesFront (rest_of (into.old.items ++ held self.old)
            (S.left shelf.old))
            (rest_of (into.new.items ++ held self.new) (S.left shelf.new)) []) }
        ensures bound { OnOk result (vec_len into.new ≤ most) }
        ensures grows { OnOk result (vec_len into.old ≤ vec_len into.new) }
        ensures end { OnOk result (vec_len into.new ≡ vec_len into.old →
            IsWhole (rest_of (held self.old) (S.left shelf.old))) }
        ensures shelf { Serves S.lends S.content S.begun S.faults shelf.old shelf.new }
        ensures cause { IsErrOf result ShelfError.Failed → Rose (S.faults shelf.old)
            (S.faults shelf.new) }
    {
        if self.is_empty() {
            self.fill(shelf)?;
        }
        self.copy(into, most)?;
        Ok(())
    }

    /// Moves bytes from the front of the remaining bytes to the end of `into`, until it has `most`
    /// bytes or nothing is left.
    pub fn take<S: Shelf>(
        &mut self,
        shelf: &mut S,
        into: &mut Vec<u8>,
        most: usize,
    ) -> Result<(), ShelfError>
        requires room { vec_len into.old ≤ most }
        requires begun { IsTrue (S.begun shelf.old) }
        ensures taken { OnOk result (TakesFront (rest_of (into.old.items ++ held self.old)
            (S.left shelf.old))
            (rest_of (held self.new) (S.left shelf.new)) into.new.items) }
        ensures bound { OnOk result (vec_len into.new ≤ most) }
        ensures short { OnOk result (IsShort (rest_of (into.old.items ++ held self.old)
            (S.left shelf.old)) into.new.items most) }
        ensures shelf { Serves S.lends S.content S.begun S.faults shelf.old shelf.new }
        ensures cause { IsErrOf result ShelfError.Failed → Rose (S.faults shelf.old)
            (S.faults shelf.new) }
    {
        while into.len() < most {
            let before = into.len();
            self.copy_more(shelf, into, most)?;
            if into.len() == before {
                break;
            }
        }
        Ok(())
    }

    /// Replaces the contents of `into` by `most` bytes from the front of the remaining bytes, or by
    /// all if there are fewer. If the window has them all, they are moved at once.
    #[inline(always)]
    pub fn take_anew<S: Shelf>(
        &mut self,
        shelf: &mut S,
        into: &mut Vec<u8>,
        most: usize,
    ) -> Result<(), ShelfError>
        requires begun { IsTrue (S.begun shelf.old) }
        ensures taken { OnOk result (TakesFront (rest_of (held self.old) (S.left shelf.old))
            (rest_of (held self.new) (S.left shelf.new)) into.new.items) }
        ensures bound { OnOk result (vec_len into.new ≤ most) }
        ensures short { OnOk result (IsShort (rest_of (held self.old) (S.left shelf.old))
            into.new.items most) }
        ensures shelf { Serves S.lends S.content S.begun S.faults shelf.old shelf.new }
        ensures cause { IsErrOf result ShelfError.Failed → Rose (S.faults shelf.old)
            (S.faults shelf.new) }
    {
        into.clear();
        if most <= self.end - self.at {
            self.copy(into, most)?;
            return Ok(());
        }
        self.take(shelf, into, most)
    }

    /// Takes `most` bytes from the front of the remaining bytes, or all if there are fewer, and
    /// returns how many. If the window has them all, they stay in it. Otherwise they replace the
    /// contents of `into`. In both cases `taken` returns them until the next change of the window.
    #[inline(always)]
    pub fn take_in_place<S: Shelf>(
        &mut self,
        shelf: &mut S,
        into: &mut Vec<u8>,
        most: usize,
    ) -> Result<usize, ShelfError>
        requires begun { IsTrue (S.begun shelf.old) }
        ensures taken { OnOk result (TakesFront (rest_of (held self.old) (S.left shelf.old))
            (rest_of (held self.new) (S.left shelf.new))
            (bytes_taken self.new into.new.items)) }
        ensures count { IfOk result (λ n. length (bytes_taken self.new into.new.items) ≡ n) }
        ensures bound { IfOk result (λ n. n ≤ most) }
        ensures short { OnOk result (IsShort (rest_of (held self.old) (S.left shelf.old))
            (bytes_taken self.new into.new.items) most) }
        ensures shelf { Serves S.lends S.content S.begun S.faults shelf.old shelf.new }
        ensures cause { IsErrOf result ShelfError.Failed → Rose (S.faults shelf.old)
            (S.faults shelf.new) }
    {
        if most <= self.end - self.at {
            self.at += most;
            self.in_place = Some(most);
            return Ok(most);
        }
        into.clear();
        self.take(shelf, into, most)?;
        self.in_place = None;
        Ok(into.len())
    }

    /// Takes the next record, after `count` records, if the window has all of it and a capture may
    /// have one more. `taken` returns its captured bytes until the next change of the window.
    #[inline(always)]
    pub(crate) fn take_record(&mut self, head: Head, count: u32) -> Option<Frame>
        ensures some { IfSome result (λ frame. (copied : List ℕ) (left : Option (List ℕ)) →
            TakesNext head.big head.nano count frame (bytes_taken self.new copied)
            (rest_of (held self.old) left) (rest_of (held self.new) left)) }
        ensures none { IfNone result (self.new ≡ self.old) }
    {
        let front = &self.buffer[self.at..self.end];
        if count == u32::MAX || front.len() < RECORD_LEN {
            return None;
        }
        let header = record_header_in(head, &front[..RECORD_LEN]);
        let captured = header.captured as usize;
        if front.len() < RECORD_LEN + captured {
            return None;
        }
        self.at += RECORD_LEN + captured;
        self.in_place = Some(captured);
        Some(Frame {
            number: u64::from(count) + 1,
            moment: header.moment,
            captured: header.captured,
            len: header.len,
        })
    }

    /// Returns the bytes that the last call of `take_in_place` or `take_record` took. `copied` are
    /// the contents of the buffer that it was given.
    #[inline(always)]
    pub fn taken<'b>(&'b self, copied: &'b [u8]) -> &'b [u8]
        ensures { result.now ≡ bytes_taken self.now copied.now }
    {
        match self.in_place {
            Some(count) => &self.buffer[self.at.saturating_sub(count)..self.at],
            None => copied,
        }
    }

    /// Copies the bytes that the last call of `take_in_place` took to the buffer that it was given,
    /// unless it did so already.
    pub fn copy_taken(&self, into: &mut Vec<u8>) -> Result<(), AllocError>
        ensures { OnOk result (into.new.items ≡ bytes_taken self.now into.old.items) }
    {
        if self.in_place.is_some() {
            into.clear();
            into.extend_from_slice(self.taken(&[]))?;
        }
        Ok(())
    }

    /// Reads the next bytes of the file if the window is empty.
    fn refill<S: Shelf>(&mut self, shelf: &mut S) -> Result<(), ShelfError>
        requires begun { IsTrue (S.begun shelf.old) }
        ensures same { TakesFront (rest_of (held self.old) (S.left shelf.old))
            (rest_of (held self.new) (S.left shelf.new)) [] }
        ensures end { OnOk result (held self.new ≡ [] →
            IsWhole (rest_of (held self.old) (S.left shelf.old))) }
        ensures shelf { Serves S.lends S.content S.begun S.faults shelf.old shelf.new }
        ensures cause { IsErrOf result ShelfError.Failed → Rose (S.faults shelf.old)
            (S.faults shelf.new) }
    {
        if self.is_empty() {
            self.fill(shelf)?;
        }
        Ok(())
    }

    /// Skips at most `most` bytes of the window, and returns how many.
    pub fn advance(&mut self, most: usize) -> usize
        ensures count { result ≡ min (length (held self.old)) most }
        ensures passed { held self.new ≡ drop result (held self.old) }
    {
        let count = (self.end - self.at).min(most);
        self.at += count;
        count
    }

    /// Skips one piece of at most `most` bytes, from the window or newly read, and returns how
    /// many. Returns 0 only if nothing is left.
    fn pass_more<S: Shelf>(&mut self, shelf: &mut S, most: usize) -> Result<usize, ShelfError>
        requires some { 0 < most }
        requires begun { IsTrue (S.begun shelf.old) }
        ensures passed { IfOk result (λ n. Passes n (rest_of (held self.old) (S.left shelf.old))
            (rest_of (held self.new) (S.left shelf.new))) }
        ensures bound { IfOk result (λ n. n ≤ most) }
        ensures end { IfOk result (λ n. n ≡ 0 → IsWhole (rest_of (held self.old)
            (S.left shelf.old))) }
        ensures shelf { Serves S.lends S.content S.begun S.faults shelf.old shelf.new }
        ensures cause { IsErrOf result ShelfError.Failed → Rose (S.faults shelf.old)
            (S.faults shelf.new) }
    {
        self.refill(shelf)?;
        Ok(self.advance(most))
    }

    /// Skips `count` bytes of the remaining bytes, or all if there are fewer, and returns how many.
    pub fn pass<S: Shelf>(&mut self, shelf: &mut S, count: usize) -> Result<usize, ShelfError>
        requires begun { IsTrue (S.begun shelf.old) }
        ensures passed { IfOk result (λ n. Passes n (rest_of (held self.old) (S.left shelf.old))
            (rest_of (held self.new) (S.left shelf.new))) }
        ensures bound { IfOk result (λ n. n ≤ count) }
        ensures end { IfOk result (λ n. n < count → IsAll n (rest_of (held self.old)
            (S.left shelf.old))) }
        ensures shelf { Serves S.lends S.content S.begun S.faults shelf.old shelf.new }
        ensures cause { IsErrOf result ShelfError.Failed → Rose (S.faults shelf.old)
            (S.faults shelf.new) }
    {
        let mut rest = count;
        while rest > 0 {
            let passed = self.pass_more(shelf, rest)?;
            if passed == 0 {
                return Ok(count - rest);
            }
            rest -= passed;
        }
        Ok(count)
    }
}
