//! A shelf and a sink in memory without faults.
ghost use Rattle.std.specs.Prelude.{◌≤◌, vec_len, vec_capacity};

use crate::files::{Cursor, content_from, copy_front, place_or_end};
use crate::shelves::{Shelf, ShelfError};
use crate::sinks::{Sink, SinkError};
use std::alloc::{AllocError, Global};

/// Files in memory. An unknown name is an empty file.
#[derive(Drop)]
pub struct PlainShelf {
    files: Vec<(String, Vec<u8>)>,
    reading: Option<Cursor>,
}

impl PlainShelf {
    ghost use Rattle.std.specs.Prelude.{◌≡◌, IsFalse};
    ghost use Rattle.outside_core.specs.Stored.{files_of};
    ghost use Rattle.outside_core.specs.Plain.{held_files, is_begun};

    pub fn new(files: Vec<(String, Vec<u8>)>) -> PlainShelf
        ensures files { held_files result ≡ files_of files.items }
        ensures begun { IsFalse (is_begun result) }
    {
        PlainShelf {
            files,
            reading: None,
        }
    }
}

impl Shelf for PlainShelf {
    ghost use Rattle.std.specs.Prelude.{◌≡◌, ◌<◌, Some, Ok, length, min, true, IsTrue, IsOk, IfOk};
    ghost use Rattle.outside_core.specs.Files.{Takes};
    ghost use Rattle.outside_core.specs.Stored.{content_or_empty};
    ghost use Rattle.outside_core.specs.Plain.{held_files, is_begun, bytes_left};

    ghost lends = { λ _ _. true };

    ghost content = { λ s name. Some (content_or_empty (held_files s) name) };

    ghost begun = { is_begun };

    ghost left = { λ s. Some (bytes_left s) };

    ghost faults = { λ _. 0 };

    fn begin(&mut self, name: &str) -> Result<(), ShelfError>
        ensures succeeds { IsOk result }
        ensures begun { IsTrue (is_begun self.new) }
        ensures whole { bytes_left self.new ≡ content_or_empty (held_files self.old) name.now }
        ensures held { held_files self.new ≡ held_files self.old }
    {
        let place = place_or_end(&self.files, name);
        self.reading = Some(Cursor { place, at: 0 });
        Ok(())
    }

    fn read(&mut self, buf: &mut [u8]) -> Result<usize, ShelfError>
        requires started { IsTrue (is_begun self.old) }

        ensures count { result ≡ Ok (min (length (bytes_left self.old)) (length buf.old)) }
        ensures taken { IfOk result (λ n. Takes (Some (bytes_left self.old))
            (Some (bytes_left self.new)) buf.new n) }
        ensures begun { IsTrue (is_begun self.new) }
        ensures held { held_files self.new ≡ held_files self.old }
    {
        let Some(cursor) = &mut self.reading else {
            unreachable!()
        };
        let count = copy_front(content_from(&self.files, cursor.place, cursor.at), buf);
        cursor.at += count;
        Ok(count)
    }
}

/// Bytes in memory. Every write succeeds; only the first `room` bytes are stored.
#[derive(Drop)]
pub struct PlainSink {
    bytes: Vec<u8>,
    room: usize,
    whole: bool,
    ghost kept: { vec_len bytes ≤ room },
    ghost reserved: { room ≤ vec_capacity bytes },
}

impl PlainSink {
    ghost use Rattle.std.specs.Prelude.{◌≡◌, [], IsTrue, IfOk};
    ghost use Rattle.outside_core.specs.Plain.{kept_bytes, sink_room, is_whole};

    pub fn new(alloc: Global, room: usize) -> Result<PlainSink, AllocError>
        ensures bytes { IfOk result (λ s. kept_bytes s ≡ []) }
        ensures whole { IfOk result (λ s. IsTrue (is_whole s)) }
        ensures room { IfOk result (λ s. sink_room s ≡ room) }
    {
        let bytes = Vec::with_capacity(alloc, room)?;
        Ok(PlainSink {
            bytes,
            room,
            whole: true,
        })
    }

    /// Returns the bytes stored.
    pub fn bytes(&self) -> &[u8]
        ensures { result.now ≡ kept_bytes self.now }
    {
        &self.bytes
    }
}

impl Sink for PlainSink {
    ghost use Rattle.std.specs.Prelude.{◌≡◌, ◌<◌, ◌≤◌, ◌+◌, ◌↔◌, ◌++◌, Ok, IsTrue, take, length};
    ghost use Rattle.outside_core.specs.Plain.{kept_bytes, sink_room, is_whole, told_bytes};

    ghost written = { told_bytes };

    ghost faults = { λ _. 0 };

    fn write(&mut self, piece: &[u8]) -> Result<usize, SinkError>
        requires some { 0 < length piece.now }

        ensures all { result ≡ Ok (length piece.now) }
        ensures kept { kept_bytes self.new ≡ take (sink_room self.old)
            (kept_bytes self.old ++ piece.now) }

        // Its bytes stay observable as long as all bytes written are stored.
        ensures whole { IsTrue (is_whole self.new) ↔
            (IsTrue (is_whole self.old) × (length (kept_bytes self.old) + length piece.now ≤ sink_room self.old)) }
        ensures room { sink_room self.new ≡ sink_room self.old }
    {
        let count = piece.len().min(self.room - self.bytes.len());
        let _ = self.bytes.extend_from_slice(&piece[..count]);
        if count < piece.len() {
            self.whole = false;
        }
        Ok(piece.len())
    }
}
