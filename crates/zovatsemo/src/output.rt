//! The output: standard output, or a new file.
ghost use Rattle.std.specs.Prelude.{◌≡◌, ◌≤◌, length, IfOk};

use crate::tail::Tail;
use crate::told::tell;
use front_core::{tell_status, with_detail};
use front_defs::Command;
use outside_core::{Sink, SinkError};
use std::alloc::AllocError;
use std::fs::File;
use std::io::{self, Write};

/// Exit status: the output can't be written.
pub const NO_OUTPUT: u8 = 9;

/// Standard output, or a file that is created at the first write. An existing file is never
/// overwritten. Each write is flushed.
#[derive(Drop)]
pub struct Output<'a> {
    rt: HostRuntime,
    name: Option<&'a str>,
    file: Option<File>,
    failure: Option<io::Error>,
    faults: u64,
    tail: Tail,
}

impl<'a> Output<'a> {
    /// Creates an output to the file with this name, or to standard output if there is no name.
    pub fn new(rt: HostRuntime, name: Option<&'a str>) -> Output<'a> {
        Output {
            rt,
            name,
            file: None,
            failure: None,
            faults: 0,
            tail: Tail::new(),
        }
    }

    /// Returns the last bytes that were written.
    pub fn tail(&self) -> &Tail {
        &self.tail
    }

    /// Writes some bytes from the front of the piece, and returns how many. Creates the file first
    /// if needed.
    fn put(&mut self, piece: &[u8]) -> io::Result<usize>
        ensures bound { IfOk result (λ n. n ≤ length piece.now) }
        ensures faults { self.new.faults ≡ self.old.faults }
    {
        let Some(name) = self.name else {
            return write_flushed(&mut io::writer(&self.rt), piece);
        };
        if self.file.is_none() {
            self.file = Some(File::create_new(&self.rt, name)?);
        }
        match &mut self.file {
            Some(file) => write_flushed(file, piece),
            None => Ok(0),
        }
    }

    /// Writes to standard error why the output can't be written. A pipe whose reader ended gets no
    /// message.
    pub fn tell_failure(&self, command: Command) -> Result<(), AllocError> {
        let rt = &self.rt;
        match (self.name, &self.failure) {
            (_, Some(error)) if error.kind() == io::ErrorKind::BrokenPipe => (),
            (Some(name), Some(error)) if error.kind() == io::ErrorKind::AlreadyExists => {
                let text = format!(in rt.alloc();
                    "{name}: error: expected the name of a new file, found a file that exists\n  help: remove it first, or name another\n"
                )?;
                tell(rt, text.as_bytes());
            }
            (Some(name), Some(error)) => {
                let text = format!(in rt.alloc();
                    "{name}: error: expected a file that can be written, found: {error}\n"
                )?;
                tell(rt, text.as_bytes());
            }
            (None, Some(error)) => {
                let reason = format!(in rt.alloc(); "  the system's reason: {error}\n")?;
                let text = tell_status(rt.alloc(), command, NO_OUTPUT)?;
                tell(rt, &with_detail(rt.alloc(), &text, &reason)?);
            }
            _ => tell(rt, &tell_status(rt.alloc(), command, NO_OUTPUT)?),
        }
        Ok(())
    }
}

impl<'a> Sink for Output<'a> {
    ghost use Rattle.std.specs.Prelude.{None};

    ghost written = { λ _. None };

    ghost faults = { λ s. s.faults };

    fn write(&mut self, piece: &[u8]) -> Result<usize, SinkError> {
        match self.put(piece) {
            Ok(count) if 0 < count => {
                self.tail.note(&piece[..count]);
                Ok(count)
            }
            Ok(_) => {
                self.faults = self.faults.saturating_add(1);
                Err(SinkError::Failed)
            }
            Err(error) => {
                self.failure = Some(error);
                self.faults = self.faults.saturating_add(1);
                Err(SinkError::Failed)
            }
        }
    }
}

/// Writes some bytes and flushes them. Returns how many.
fn write_flushed<W: Write>(writer: &mut W, piece: &[u8]) -> io::Result<usize>
    ensures { IfOk result (λ n. n ≤ length piece.now) }
{
    let count = writer.write(piece)?;
    writer.flush()?;
    Ok(count)
}
