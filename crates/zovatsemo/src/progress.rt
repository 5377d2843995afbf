//! How much of a file is read, shown at a terminal.
use outside_core::{Shelf, ShelfError};
use std::fs;
use std::io::{IsTerminal, Write};
use std::time::{Duration, Instant};

/// The milliseconds before the first line is shown.
const WAIT: u64 = 2_000;

/// The milliseconds between two lines.
const BETWEEN: u64 = 200;

/// More blanks than a line has letters.
const BLANKS: &[u8] = b"                                        \r";

/// A line at a terminal about the file that is being read. The cursor stays at its start, so that
/// other text replaces it.
#[derive(Drop)]
struct Line {
    rt: HostRuntime,
    /// The time when the run began, if lines are shown at all.
    start: Option<Instant>,
    /// How long the run lasts before the next line is shown.
    next: Duration,
    /// The bytes read of the file.
    read: u64,
    /// The bytes that the file has, if they are known.
    size: Option<u64>,
    is_shown: bool,
}

impl Line {
    /// Begins with the file of this name.
    fn begin(&mut self, name: &str) {
        if self.start.is_none() {
            return;
        }
        self.read = 0;
        self.size = match fs::metadata(&self.rt, name) {
            Ok(found) if found.is_file() && 0 < found.len() => Some(found.len()),
            _ => None,
        };
    }

    /// Shows how much is read.
    fn show(&mut self) {
        let alloc = self.rt.alloc();
        let text = match self.size {
            Some(size) if 0 < size => {
                let percent = (self.read as u128 * 100 / size as u128).min(100);
                format!(in alloc; "reading {percent} %\r")
            }
            _ => {
                let megabytes = self.read / 1_000_000;
                format!(in alloc; "reading {megabytes} MB\r")
            }
        };
        if let Ok(text) = text {
            let _ = self.rt.stderr().write_all(text.as_bytes());
            self.is_shown = true;
        }
    }

    /// Counts bytes that were read, and shows how many if it is time.
    fn count(&mut self, bytes: usize) {
        let Some(start) = &self.start else {
            return;
        };
        self.read = self.read.saturating_add(bytes as u64);
        let Ok(elapsed) = start.elapsed(&self.rt) else {
            return;
        };
        if elapsed < self.next {
            return;
        }
        self.next = elapsed.saturating_add(Duration::from_millis(BETWEEN));
        self.show();
    }

    /// Erases the line, if there is one.
    fn erase(&mut self) {
        if self.is_shown {
            let _ = self.rt.stderr().write_all(BLANKS);
            self.is_shown = false;
        }
    }
}

/// A shelf that shows how much of the open file is read.
#[derive(Drop)]
pub struct Watched<S> {
    shelf: S,
    line: Line,
}

impl<S: Shelf + Drop> Watched<S> {
    ghost use Rattle.std.specs.Prelude.{◌≡◌};

    /// Wraps a shelf. Lines are shown on standard error if it is a terminal and `shows`, from two
    /// seconds on.
    pub fn new(rt: HostRuntime, shelf: S, shows: bool) -> Watched<S>
        ensures { result.shelf ≡ shelf }
    {
        let start = if shows && rt.stderr().is_terminal() {
            Instant::now(&rt).ok()
        } else {
            None
        };
        Watched {
            shelf,
            line: Line {
                rt,
                start,
                next: Duration::from_millis(WAIT),
                read: 0,
                size: None,
                is_shown: false,
            },
        }
    }

    /// Erases the line, if there is one.
    pub fn erase(&mut self) {
        self.line.erase();
    }
}

impl<S: Shelf + Drop> Shelf for Watched<S> {
    ghost lends = { λ s name. S.lends s.shelf name };

    ghost content = { λ s name. S.content s.shelf name };

    ghost begun = { λ s. S.begun s.shelf };

    ghost left = { λ s. S.left s.shelf };

    ghost faults = { λ s. S.faults s.shelf };

    fn begin(&mut self, name: &str) -> Result<(), ShelfError> {
        self.line.begin(name);
        self.shelf.begin(name)
    }

    fn read(&mut self, buf: &mut [u8]) -> Result<usize, ShelfError> {
        let count = self.shelf.read(buf)?;
        if count == 0 {
            self.line.erase();
        } else {
            self.line.count(count);
        }
        Ok(count)
    }
}
