//! Warnings about one file.
use std::alloc::{AllocError, Global};

/// The most warnings about one file that are written.
const MOST_NOTES: u64 = 20;

/// The warnings about one file, as lines.
#[derive(Drop)]
pub struct Notes<'a> {
    /// The file's name.
    name: &'a str,
    text: String,
    count: u64,
}

impl<'a> Notes<'a> {
    /// Creates an empty list of warnings about the file of this name.
    pub fn new(alloc: Global, name: &'a str) -> Notes<'a> {
        Notes {
            name,
            text: String::new(alloc),
            count: 0,
        }
    }

    /// Counts a warning, and returns whether it is to be written.
    fn has_room(&mut self) -> bool {
        self.count = self.count.saturating_add(1);
        self.count <= MOST_NOTES
    }

    /// Adds a warning about the file. Fails if out of memory.
    pub fn add(&mut self, what: &str) -> Result<(), AllocError> {
        if !self.has_room() {
            return Ok(());
        }
        let name = self.name;
        write!(self.text, "{name}: warning: {what}\n")
    }

    /// Adds a warning about a line of the file. Fails if out of memory.
    pub fn add_at(&mut self, line: u32, what: &str) -> Result<(), AllocError> {
        if !self.has_room() {
            return Ok(());
        }
        let name = self.name;
        write!(self.text, "{name}:{line}: warning: {what}\n")
    }

    /// Returns the warnings, and how many more there are. Fails if out of memory.
    pub fn finish(self) -> Result<String, AllocError> {
        let Notes {
            name,
            mut text,
            count,
        } = self;
        let more = count.saturating_sub(MOST_NOTES);
        if 0 < more {
            write!(text, "{name}: {more} more warnings\n")?;
        }
        Ok(text)
    }
}
