//! The bytes of a report that wait for the sink.
ghost use Rattle.std.specs.Prelude.{◌≡◌, ◌+◌, ◌≤◌, ℕ, List, [], ◌++◌, length, take, IsTrue, is_ok, IfOk, OnOk, OnErr};
ghost use Rattle.outside_core.specs.Faults.{Rose};
ghost use Rattle.outside_core.specs.Written.{Appended};
ghost use Rattle.outside_core.specs.Kept.{KeepsSink};
ghost use Rattle.outside_core.specs.Text.{appended, IsCut};
ghost use Rattle.report_core.specs.Gathered.{limit, line_room, HasRoom};

use crate::fault::WriteFault;
use crate::line::{LINE, put_bytes};
use outside_core::{Sink, write_all};
use std::alloc::{AllocError, Global};

/// The greatest number of bytes held between two calls.
pub const LIMIT: usize = 65_536;

/// Bytes that wait for the sink, and room for a line after them. All memory is allocated at once.
#[derive(Drop)]
pub struct Buffer {
    pub bytes: Vec<u8>,
    pub held: usize,
    /// No write has failed.
    pub live: bool,
}

/// Writes all the bytes.
pub fn send<K: Sink>(sink: &mut K, bytes: &[u8]) -> Result<(), WriteFault>
    ensures ok { OnOk result (Appended (K.written sink.old) (K.written sink.new) bytes.now) }
    ensures cut { OnErr result (IsCut (appended (K.written sink.old) bytes.now) []
        (K.written sink.new)) }
    ensures kept { KeepsSink K.written K.faults sink.old sink.new }
    ensures cause { OnErr result (Rose (K.faults sink.old) (K.faults sink.new)) }
{
    write_all(sink, bytes)?;
    Ok(())
}

impl Buffer {
    pub fn new(alloc: Global) -> Result<Buffer, AllocError>
        ensures empty { IfOk result (λ b. b.held ≡ 0) }
        ensures room { IfOk result (λ b. HasRoom b.held b.bytes.items) }
        ensures live { IfOk result (λ b. IsTrue b.live) }
    {
        Ok(Buffer {
            bytes: vec![in alloc; 0; LIMIT + LINE]?,
            held: 0,
            live: true,
        })
    }

    /// Writes all bytes held.
    #[inline(never)]
    pub fn flush<K: Sink>(&mut self, sink: &mut K) -> Result<(), WriteFault>
        requires within { self.old.held ≤ length self.old.bytes.items }
        ensures ok { OnOk result (Appended (appended (K.written sink.old)
            (take self.old.held self.old.bytes.items)) (K.written sink.new) []) }
        ensures cut { OnErr result (IsCut (appended (K.written sink.old)
            (take self.old.held self.old.bytes.items)) [] (K.written sink.new)) }
        ensures kept { KeepsSink K.written K.faults sink.old sink.new }
        ensures cause { OnErr result (Rose (K.faults sink.old) (K.faults sink.new)) }
        ensures empty { self.new.held ≡ 0 }
        ensures bytes { self.new.bytes ≡ self.old.bytes }
        ensures live { self.new.live ≡ is_ok result }
    {
        let sent = send(sink, &self.bytes[..self.held]);
        self.held = 0;
        self.live = sent.is_ok();
        sent
    }

    /// Adds a line that was written after the bytes held and ends at `end`. Writes all bytes held
    /// if they exceed the limit.
    #[inline(always)]
    pub fn close<K: Sink>(&mut self, sink: &mut K, end: usize) -> Result<(), WriteFault>
        requires live { IsTrue self.old.live }
        requires room { (end ≤ length self.old.bytes.items)
            × (length self.old.bytes.items ≡ limit + line_room) }
        ensures ok { (before line : List ℕ) → take end self.old.bytes.items ≡ before ++ line →
            OnOk result (Appended (appended (K.written sink.old) before)
            (appended (K.written sink.new) (take self.new.held self.new.bytes.items)) line) }
        ensures cut { (before line : List ℕ) → take end self.old.bytes.items ≡ before ++ line →
            OnErr result (IsCut (appended (K.written sink.old) before) line (K.written sink.new)) }
        ensures kept { KeepsSink K.written K.faults sink.old sink.new }
        ensures cause { OnErr result (Rose (K.faults sink.old) (K.faults sink.new)) }
        ensures room { HasRoom self.new.held self.new.bytes.items }
        ensures live { self.new.live ≡ is_ok result }
    {
        self.held = end;
        if end <= LIMIT {
            return Ok(());
        }
        self.flush(sink)
    }

    /// Adds any number of bytes. If they don't fit, the bytes held are written first.
    #[inline(always)]
    pub fn put_or_send<K: Sink>(&mut self, sink: &mut K, bytes: &[u8]) -> Result<(), WriteFault>
        requires live { IsTrue self.old.live }
        requires room { HasRoom self.old.held self.old.bytes.items }
        ensures ok { OnOk result (Appended (appended (K.written sink.old)
            (take self.old.held self.old.bytes.items)) (appended (K.written sink.new)
            (take self.new.held self.new.bytes.items)) bytes.now) }
        ensures cut { OnErr result (IsCut (appended (K.written sink.old)
            (take self.old.held self.old.bytes.items)) bytes.now (K.written sink.new)) }
        ensures kept { KeepsSink K.written K.faults sink.old sink.new }
        ensures cause { OnErr result (Rose (K.faults sink.old) (K.faults sink.new)) }
        ensures room { HasRoom self.new.held self.new.bytes.items }
        ensures live { self.new.live ≡ is_ok result }
    {
        if bytes.len() <= LIMIT - self.held {
            self.held = put_bytes(&mut self.bytes, self.held, bytes);
            return Ok(());
        }
        self.flush_and_put(sink, bytes)
    }

    /// Writes all bytes held, then adds any number of bytes. More than `LIMIT` bytes go to the sink
    /// directly.
    #[cold]
    fn flush_and_put<K: Sink>(&mut self, sink: &mut K, bytes: &[u8]) -> Result<(), WriteFault>
        requires room { HasRoom self.old.held self.old.bytes.items }
        ensures ok { OnOk result (Appended (appended (K.written sink.old)
            (take self.old.held self.old.bytes.items)) (appended (K.written sink.new)
            (take self.new.held self.new.bytes.items)) bytes.now) }
        ensures cut { OnErr result (IsCut (appended (K.written sink.old)
            (take self.old.held self.old.bytes.items)) bytes.now (K.written sink.new)) }
        ensures kept { KeepsSink K.written K.faults sink.old sink.new }
        ensures cause { OnErr result (Rose (K.faults sink.old) (K.faults sink.new)) }
        ensures room { HasRoom self.new.held self.new.bytes.items }
        ensures live { self.new.live ≡ is_ok result }
    {
        self.flush(sink)?;
        if bytes.len() > LIMIT {
            let direct = send(sink, bytes);
            self.live = direct.is_ok();
            return direct;
        }
        self.held = put_bytes(&mut self.bytes, self.held, bytes);
        Ok(())
    }
}
