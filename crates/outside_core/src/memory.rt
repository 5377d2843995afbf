//! A shelf and a sink in memory whose calls fail as configured.
ghost use Rattle.std.specs.Prelude.{◌≤◌, vec_len, vec_capacity};

use crate::faults::{Calls, raise};
use crate::files::{Cursor, content_from, copy_front, place_of};
use crate::shelves::{Shelf, ShelfError};
use crate::sinks::{Sink, SinkError};
use std::alloc::{AllocError, Global};

/// Files in memory; the calls with the configured numbers fail.
#[derive(Drop)]
pub struct MemShelf {
    files: Vec<(String, Vec<u8>)>,
    most: usize,
    calls: Calls,
    faults: u64,
    reading: Option<Cursor>,
    ghost some: { 1 ≤ most },
}

impl MemShelf {
    ghost use Rattle.std.specs.Prelude.{◌≡◌, ◌≤◌, IsFalse};
    ghost use Rattle.outside_core.specs.Stored.{files_of};
    ghost use Rattle.outside_core.specs.Memory.{held_files, is_begun, greatest_read, failing_calls, calls_made, faults_met};

    /// `most` is the greatest size of one read, in bytes. `fail` lists the numbers of the calls
    /// that fail, counted from 1 over `begin` and `read` together.
    pub fn new(files: Vec<(String, Vec<u8>)>, most: usize, fail: Vec<u64>) -> MemShelf
        requires { 1 ≤ most }

        ensures files { held_files result ≡ files_of files.items }
        ensures most { greatest_read result ≡ most }
        ensures fail { failing_calls result ≡ fail.items }
        ensures calls { calls_made result ≡ 0 }
        ensures faults { faults_met result ≡ 0 }
        ensures begun { IsFalse (is_begun result) }
    {
        MemShelf {
            files,
            most,
            calls: Calls::new(fail),
            faults: 0,
            reading: None,
        }
    }
}

impl Shelf for MemShelf {
    ghost use Rattle.std.specs.Prelude.{◌≡◌, ◌+◌, ◌<◌, ◌≤◌, ◌↔◌, Some, length, min, true, IsSome, IsTrue, IsFalse, IsOk, IsErrOf, IfOk, OnOk, OnErr};
    ghost use Rattle.outside_core.specs.Faults.{one_more, CountsFaults};
    ghost use Rattle.outside_core.specs.Files.{Takes};
    ghost use Rattle.outside_core.specs.Stored.{first_content};
    ghost use Rattle.outside_core.specs.Memory.{held_files, is_begun, bytes_left, greatest_read, calls_made, faults_met, fails_next, KeepsSetting};

    ghost lends = { λ _ _. true };

    ghost content = { λ s name. first_content (held_files s) name };

    ghost begun = { is_begun };

    ghost left = { λ s. Some (bytes_left s) };

    ghost faults = { faults_met };

    fn begin(&mut self, name: &str) -> Result<(), ShelfError>
        ensures begun { OnOk result (IsTrue (is_begun self.new)) }
        ensures whole { OnOk result (Some (bytes_left self.new) ≡
            first_content (held_files self.old) name.now) }
        ensures refused { OnErr result (IsFalse (is_begun self.new)) }

        // It fails exactly if this call is set to fail or the name is unknown.
        ensures fails { IsOk result ↔ (IsFalse (fails_next self.old) ×
            IsSome (first_content (held_files self.old) name.now)) }
        ensures no_memory_never { IsErrOf result ShelfError.NoMemory → ⊥ }

        ensures later { faults_met self.old ≤ faults_met self.new }
        ensures faults { CountsFaults result (faults_met self.old) (faults_met self.new) }
        ensures calls { calls_made self.new ≡ one_more (calls_made self.old) }
        ensures setting { KeepsSetting self.old self.new }
    {
        self.reading = None;
        match (self.calls.fails_next(), place_of(&self.files, name)) {
            (false, Some(place)) => {
                self.reading = Some(Cursor { place, at: 0 });
                Ok(())
            }
            _ => {
                raise(&mut self.faults);
                Err(ShelfError::Failed)
            }
        }
    }

    fn read(&mut self, buf: &mut [u8]) -> Result<usize, ShelfError>
        requires started { IsTrue (is_begun self.old) }

        ensures count { IfOk result (λ n. n ≡ min (length (bytes_left self.old))
            (min (length buf.old) (greatest_read self.old))) }
        ensures taken { IfOk result (λ n. Takes (Some (bytes_left self.old))
            (Some (bytes_left self.new)) buf.new n) }
        ensures refused { OnErr result (bytes_left self.new ≡ bytes_left self.old) }
        ensures begun { IsTrue (is_begun self.new) }

        ensures fails { IsOk result ↔ IsFalse (fails_next self.old) }
        ensures no_memory_never { IsErrOf result ShelfError.NoMemory → ⊥ }

        ensures later { faults_met self.old ≤ faults_met self.new }
        ensures faults { CountsFaults result (faults_met self.old) (faults_met self.new) }
        ensures calls { calls_made self.new ≡ one_more (calls_made self.old) }
        ensures setting { KeepsSetting self.old self.new }
    {
        if self.calls.fails_next() {
            raise(&mut self.faults);
            return Err(ShelfError::Failed);
        }
        let Some(cursor) = &mut self.reading else {
            unreachable!()
        };
        let room = buf.len().min(self.most);
        let rest = content_from(&self.files, cursor.place, cursor.at);
        let count = copy_front(rest, &mut buf[..room]);
        cursor.at += count;
        Ok(count)
    }
}

/// Bytes in memory; the writes with the configured numbers fail.
#[derive(Drop)]
pub struct MemSink {
    bytes: Vec<u8>,
    room: usize,
    most: usize,
    calls: Calls,
    faults: u64,
    ghost some: { 1 ≤ most },
    ghost kept: { vec_len bytes ≤ room },
    ghost reserved: { room ≤ vec_capacity bytes },
}

impl MemSink {
    ghost use Rattle.std.specs.Prelude.{◌≡◌, ◌≤◌, [], IfOk};
    ghost use Rattle.outside_core.specs.Memory.{sink_bytes, sink_room, greatest_write, failing_writes, writes_made, write_faults};

    /// The sink stores at most `room` bytes, and at most `most` bytes in one write. `fail` lists
    /// the numbers of the writes that fail, counted from 1.
    pub fn new(
        alloc: Global,
        room: usize,
        most: usize,
        fail: Vec<u64>,
    ) -> Result<MemSink, AllocError>
        requires { 1 ≤ most }

        ensures bytes { IfOk result (λ s. sink_bytes s ≡ []) }
        ensures room { IfOk result (λ s. sink_room s ≡ room) }
        ensures most { IfOk result (λ s. greatest_write s ≡ most) }
        ensures fail { IfOk result (λ s. failing_writes s ≡ fail.items) }
        ensures calls { IfOk result (λ s. writes_made s ≡ 0) }
        ensures faults { IfOk result (λ s. write_faults s ≡ 0) }
    {
        let bytes = Vec::with_capacity(alloc, room)?;
        Ok(MemSink {
            bytes,
            room,
            most,
            calls: Calls::new(fail),
            faults: 0,
        })
    }

    /// Returns the bytes stored.
    pub fn bytes(&self) -> &[u8]
        ensures { result.now ≡ sink_bytes self.now }
    {
        &self.bytes
    }
}

impl Sink for MemSink {
    ghost use Rattle.std.specs.Prelude.{◌≡◌, ◌+◌, ◌<◌, ◌≤◌, ◌↔◌, ◌++◌, Some, length, take, min, IsFalse, IsOk, IfOk, OnErr};
    ghost use Rattle.outside_core.specs.Faults.{one_more, CountsFaults};
    ghost use Rattle.outside_core.specs.Memory.{sink_bytes, room_left, greatest_write, writes_made, write_faults, write_fails_next, KeepsSinkSetting};

    ghost written = { λ s. Some (sink_bytes s) };

    ghost faults = { write_faults };

    fn write(&mut self, piece: &[u8]) -> Result<usize, SinkError>
        requires some { 0 < length piece.now }

        ensures count { IfOk result (λ n. n ≡ min (min (length piece.now) (greatest_write self.old))
            (room_left self.old)) }
        ensures appended { IfOk result (λ n. sink_bytes self.new ≡
            sink_bytes self.old ++ take n piece.now) }
        ensures refused { OnErr result (sink_bytes self.new ≡ sink_bytes self.old) }

        // It fails exactly if this write is set to fail or no room is left.
        ensures fails { IsOk result ↔ (IsFalse (write_fails_next self.old) ×
            (0 < room_left self.old)) }

        ensures later { write_faults self.old ≤ write_faults self.new }
        ensures faults { CountsFaults result (write_faults self.old) (write_faults self.new) }
        ensures calls { writes_made self.new ≡ one_more (writes_made self.old) }
        ensures setting { KeepsSinkSetting self.old self.new }
    {
        let left = self.room - self.bytes.len();
        if self.calls.fails_next() || left == 0 {
            raise(&mut self.faults);
            return Err(SinkError::Failed);
        }
        let count = piece.len().min(self.most).min(left);
        let _ = self.bytes.extend_from_slice(&piece[..count]);
        Ok(count)
    }
}
