//! The system's files and standard output.
ghost use Rattle.std.specs.Prelude.{◌≤◌, length, IfOk};

use crate::faults::raise;
use crate::shelves::{Shelf, ShelfError};
use crate::sinks::{Sink, SinkError};
use std::fs;
use std::io::{self, Read, Write};
use std::rt::Files;

/// Real files. A file that can't be opened counts as a fault.
#[derive(Drop)]
pub struct FileShelf<R: Files + Drop> {
    rt: R,
    reading: Option<R::File>,
    faults: u64,
}

impl<R: Files + Drop> FileShelf<R> {
    ghost use Rattle.std.specs.Prelude.{◌≡◌, IsFalse};
    ghost use Rattle.outside_core.specs.System.{is_begun, shelf_faults};

    pub fn new(rt: R) -> FileShelf<R>
        ensures begun { IsFalse (is_begun result) }
        ensures faults { shelf_faults result ≡ 0 }
    {
        FileShelf {
            rt,
            reading: None,
            faults: 0,
        }
    }
}

impl<R: Files + Drop> Shelf for FileShelf<R> {
    ghost use Rattle.std.specs.Prelude.{◌≡◌, ◌≤◌, ◌<◌, None, true, length, IsTrue, IsFalse, IsErrOf, IfOk, OnOk, OnErr};
    ghost use Rattle.outside_core.specs.Faults.{one_more, CountsFaults};
    ghost use Rattle.outside_core.specs.System.{is_begun, shelf_faults};

    ghost lends = { λ _ _. true };

    ghost content = { λ _ _. None };

    ghost begun = { is_begun };

    ghost left = { λ _. None };

    ghost faults = { shelf_faults };

    fn begin(&mut self, name: &str) -> Result<(), ShelfError>
        ensures begun { OnOk result (IsTrue (is_begun self.new)) }
        ensures refused { OnErr result (IsFalse (is_begun self.new)) }
        ensures later { shelf_faults self.old ≤ shelf_faults self.new }
        ensures faults { CountsFaults result (shelf_faults self.old) (shelf_faults self.new) }
    {
        self.reading = None;
        match fs::open(&self.rt, name) {
            Ok(file) => {
                self.reading = Some(file);
                Ok(())
            }
            Err(_) => {
                raise(&mut self.faults);
                Err(ShelfError::Failed)
            }
        }
    }

    fn read(&mut self, buf: &mut [u8]) -> Result<usize, ShelfError>
        requires started { IsTrue (is_begun self.old) }

        ensures bound { IfOk result (λ n. n ≤ length buf.old) }
        ensures begun { IsTrue (is_begun self.new) }
        ensures no_memory_never { IsErrOf result ShelfError.NoMemory → ⊥ }
        ensures later { shelf_faults self.old ≤ shelf_faults self.new }
        ensures faults { CountsFaults result (shelf_faults self.old) (shelf_faults self.new) }
    {
        let Some(file) = &mut self.reading else {
            unreachable!()
        };
        match file.read(buf) {
            Ok(count) => Ok(count),
            Err(_) => {
                raise(&mut self.faults);
                Err(ShelfError::Failed)
            }
        }
    }
}

/// Standard output, flushed after each write.
#[derive(Drop)]
pub struct StdSink<R: Print + Drop> {
    rt: R,
    faults: u64,
}

impl<R: Print + Drop> StdSink<R> {
    ghost use Rattle.std.specs.Prelude.{◌≡◌};
    ghost use Rattle.outside_core.specs.System.{sink_faults};

    pub fn new(rt: R) -> StdSink<R>
        ensures faults { sink_faults result ≡ 0 }
    {
        StdSink { rt, faults: 0 }
    }
}

impl<R: Print + Drop> Sink for StdSink<R> {
    ghost use Rattle.std.specs.Prelude.{◌≡◌, ◌≤◌, ◌<◌, None, length, IfOk};
    ghost use Rattle.outside_core.specs.Faults.{one_more, CountsFaults};
    ghost use Rattle.outside_core.specs.System.{sink_faults};

    ghost written = { λ _. None };

    ghost faults = { sink_faults };

    fn write(&mut self, piece: &[u8]) -> Result<usize, SinkError>
        requires some { 0 < length piece.now }

        ensures least { IfOk result (λ n. 0 < n) }
        ensures bound { IfOk result (λ n. n ≤ length piece.now) }
        ensures later { sink_faults self.old ≤ sink_faults self.new }
        ensures faults { CountsFaults result (sink_faults self.old) (sink_faults self.new) }
    {
        match write_flushed(io::writer(&self.rt), piece) {
            Ok(count) if 0 < count => Ok(count),
            _ => {
                raise(&mut self.faults);
                Err(SinkError::Failed)
            }
        }
    }
}

/// Writes some of the bytes and flushes them.
fn write_flushed<W: Write + Drop>(mut writer: W, piece: &[u8]) -> io::Result<usize>
    ensures { IfOk result (λ n. n ≤ length piece.now) }
{
    let count = writer.write(piece)?;
    writer.flush()?;
    Ok(count)
}
