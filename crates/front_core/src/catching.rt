//! A sink that holds back the `fault` line, from which a message is made.
ghost use Rattle.std.specs.Prelude.{◌≡◌, ◌≤◌, true, vec_len, vec_capacity};
ghost use Rattle.front_core.specs.FaultLine.{most_held, is_caught};

use crate::fault_line::{MOST_HELD, before_fault, bytes_from, bytes_to, is_fault_line};
use outside_core::{Sink, SinkError};
use std::alloc::{AllocError, Global};

/// A sink on top of another one. It passes bytes on at once, except for a `fault` line at the end
/// of a write. That line is held back, and passed on before the next bytes.
#[derive(Drop)]
pub struct Catching<K> {
    below: K,
    held: Vec<u8>,
    sent: usize,
    begins_line: bool,
    catches_first_alone: bool,
    ghost reserved: { most_held ≤ vec_capacity held },
    ghost within: { sent ≤ vec_len held },
    ghost caught: { is_caught held.items ≡ true },
}

impl<K: Sink + Drop> Catching<K> {
    ghost use Rattle.std.specs.Prelude.{◌≡◌, ◌≤◌, ◌<◌, [], take, true, IfOk, OnOk, OnErr, IsErrOf, length};
    ghost use Rattle.outside_core.specs.Faults.{Rose};
    ghost use Rattle.outside_core.specs.Written.{Appended};
    ghost use Rattle.front_core.specs.FaultLine.{is_fault_line, most_held};
    ghost use Rattle.front_core.specs.Catching.{kept_of, told};

    /// Creates a sink on top of `below`. `catches_first_alone` is for output that isn't text: then
    /// a `fault` line is held back only if it is the whole output.
    pub fn new(
        alloc: Global,
        below: K,
        catches_first_alone: bool,
    ) -> Result<Catching<K>, AllocError>
        ensures below { IfOk result (λ s. s.below ≡ below) }
        ensures kept { IfOk result (λ s. kept_of s ≡ []) }
    {
        let held = Vec::with_capacity(alloc, MOST_HELD)?;
        Ok(Catching {
            below,
            held,
            sent: 0,
            begins_line: true,
            catches_first_alone,
        })
    }

    /// Returns the sink below.
    pub fn below(&self) -> &K
        ensures { result.now ≡ self.now.below }
    {
        &self.below
    }

    /// Returns the bytes that are held back.
    pub fn kept(&self) -> &[u8]
        ensures { result.now ≡ kept_of self.now }
    {
        bytes_from(&self.held, self.sent)
    }

    /// Passes on the bytes that are held back.
    pub fn release(&mut self) -> Result<(), SinkError>
        ensures told { Appended (told (K.written self.old.below) (kept_of self.old))
            (told (K.written self.new.below) (kept_of self.new)) [] }
        ensures none { OnOk result (kept_of self.new ≡ []) }
        ensures later { K.faults self.old.below ≤ K.faults self.new.below }
        ensures cause { IsErrOf result SinkError.Failed → Rose (K.faults self.old.below)
            (K.faults self.new.below) }
    {
        while self.sent < self.held.len() {
            let count = self.below.write(bytes_from(&self.held, self.sent))?;
            self.sent += count;
        }
        Ok(())
    }

    /// Holds a line back.
    fn keep(&mut self, line: &[u8])
        requires line { is_fault_line line.now ≡ true }
        requires short { length line.now ≤ most_held }
        ensures kept { kept_of self.new ≡ line.now }
        ensures below { self.new.below ≡ self.old.below }
    {
        self.held.clear();
        self.sent = 0;
        let _ = self.held.extend_from_slice(line);
    }

    /// Passes on some bytes from the front of `piece`.
    fn send(&mut self, piece: &[u8]) -> Result<usize, SinkError>
        requires some { 0 < length piece.now }
        requires none { kept_of self.old ≡ [] }
        ensures least { IfOk result (λ n. 0 < n) }
        ensures bound { IfOk result (λ n. n ≤ length piece.now) }
        ensures appended { IfOk result (λ n. Appended (K.written self.old.below)
            (K.written self.new.below) (take n piece.now)) }
        ensures refused { OnErr result (Appended (K.written self.old.below)
            (K.written self.new.below) []) }
        ensures kept { kept_of self.new ≡ [] }
        ensures later { K.faults self.old.below ≤ K.faults self.new.below }
        ensures cause { IsErrOf result SinkError.Failed → Rose (K.faults self.old.below)
            (K.faults self.new.below) }
    {
        let count = self.below.write(piece)?;
        self.begins_line = !self.catches_first_alone && piece[count - 1] == b'\n';
        Ok(count)
    }

    /// Returns how many bytes of `piece` may be passed on before a `fault` line at its end.
    fn count_before(&self, piece: &[u8]) -> usize
        requires { 0 < length piece.now }
        ensures some { 0 < result }
        ensures within { result ≤ length piece.now }
    {
        if self.catches_first_alone {
            piece.len()
        } else {
            before_fault(piece)
        }
    }

    /// Passes on some of the bytes before a `fault` line at the end of `piece`.
    #[tactic(auto, using(crate::proofs::CatchLaws::bytes_sent, crate::proofs::CatchLaws::front_of_piece))]
    fn send_before(&mut self, piece: &[u8]) -> Result<usize, SinkError>
        requires some { 0 < length piece.now }
        requires none { kept_of self.old ≡ [] }
        ensures least { IfOk result (λ n. 0 < n) }
        ensures bound { IfOk result (λ n. n ≤ length piece.now) }
        ensures appended { IfOk result (λ n. Appended (told (K.written self.old.below) [])
            (told (K.written self.new.below) (kept_of self.new)) (take n piece.now)) }
        ensures refused { OnErr result (Appended (told (K.written self.old.below) [])
            (told (K.written self.new.below) (kept_of self.new)) []) }
        ensures later { K.faults self.old.below ≤ K.faults self.new.below }
        ensures cause { IsErrOf result SinkError.Failed → Rose (K.faults self.old.below)
            (K.faults self.new.below) }
    {
        let most = self.count_before(piece);
        let count = self.send(bytes_to(piece, most))?;
        Ok(count)
    }

    /// Holds `piece` back if it is a `fault` line. Otherwise passes on some bytes from its front.
    #[tactic(auto, using(crate::proofs::CatchLaws::piece_kept))]
    fn pass(&mut self, piece: &[u8]) -> Result<usize, SinkError>
        requires some { 0 < length piece.now }
        requires none { kept_of self.old ≡ [] }
        ensures least { IfOk result (λ n. 0 < n) }
        ensures bound { IfOk result (λ n. n ≤ length piece.now) }
        ensures appended { IfOk result (λ n. Appended (told (K.written self.old.below) [])
            (told (K.written self.new.below) (kept_of self.new)) (take n piece.now)) }
        ensures refused { OnErr result (Appended (told (K.written self.old.below) [])
            (told (K.written self.new.below) (kept_of self.new)) []) }
        ensures later { K.faults self.old.below ≤ K.faults self.new.below }
        ensures cause { IsErrOf result SinkError.Failed → Rose (K.faults self.old.below)
            (K.faults self.new.below) }
    {
        if self.begins_line && is_fault_line(piece) {
            self.keep(piece);
            return Ok(piece.len());
        }
        self.send_before(piece)
    }
}

impl<K: Sink + Drop> Sink for Catching<K> {
    ghost use Rattle.std.specs.Prelude.{◌≡◌, ◌≤◌, ◌<◌, [], take, length, IfOk, OnErr, IsErrOf};
    ghost use Rattle.outside_core.specs.Faults.{Rose};
    ghost use Rattle.outside_core.specs.Written.{Appended};
    ghost use Rattle.front_core.specs.Catching.{kept_of, told};

    ghost written = { λ s. told (K.written s.below) (kept_of s) };

    ghost faults = { λ s. K.faults s.below };

    #[tactic(auto, using(crate::proofs::CatchLaws::then_grew))]
    fn write(&mut self, piece: &[u8]) -> Result<usize, SinkError> {
        self.release()?;
        self.pass(piece)
    }
}
