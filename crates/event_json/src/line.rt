//! A line that is put together from its beginning to its end.
ghost use Rattle.std.specs.Prelude.{◌≡◌, ◌+◌, ◌*◌, ◌≤◌, [], ◌∷◌, ◌++◌, length, decimal, IfOk};
ghost use Rattle.event_json.specs.Room.{line_room};
ghost use Rattle.event_json.specs.Objects.{numbers_text};

use itoa::Buffer;
use std::alloc::{AllocError, Global};
use std::marker::Model;

/// Room for the longest line, in bytes.
const ROOM: usize = 2_048;

/// A line in memory that is allocated once; contracts see it as its bytes.
#[derive(Drop)]
pub struct Line {
    bytes: Vec<u8>,
}

impl Model for Line {
    ghost use Rattle.std.specs.Prelude.{◌≤◌, ℕ, List, vec_capacity};
    ghost use Rattle.event_json.specs.Room.{line_room};

    ghost Value = { List ℕ };

    ghost view = { λ l. l.bytes.items };

    ghost invariant = { λ l. line_room ≤ vec_capacity l.bytes };
}

impl Line {
    /// Returns an empty line. The error means out of memory.
    pub fn new(alloc: Global) -> Result<Line, AllocError>
        ensures { IfOk result (λ line. line ≡ []) }
    {
        Ok(Line {
            bytes: Vec::with_capacity(alloc, ROOM)?,
        })
    }

    /// Returns the bytes of the line.
    pub fn bytes(&self) -> &[u8]
        ensures { result.now ≡ self.now }
    {
        self.bytes.as_slice()
    }

    /// Begins a new line with these bytes.
    pub fn begin(&mut self, bytes: &[u8])
        requires room { length bytes.now ≤ line_room }
        ensures text { self.new ≡ bytes.now }
    {
        self.bytes.clear();
        self.text(bytes);
    }

    /// Adds bytes to the line.
    pub fn text(&mut self, bytes: &[u8])
        requires room { length self.old + length bytes.now ≤ line_room }
        ensures text { self.new ≡ self.old ++ bytes.now }
        ensures length { length self.new ≡ length self.old + length bytes.now }
    {
        match self.bytes.extend_from_slice(bytes) {
            Ok(()) => (),
            Err(_) => unreachable!(),
        }
    }

    /// Adds the digits of a number to the line.
    pub fn number(&mut self, value: u64)
        requires room { length self.old + 20 ≤ line_room }
        ensures text { self.new ≡ self.old ++ decimal value }
        ensures short { length self.new ≤ length self.old + 20 }
    {
        self.text(Buffer::new().format(value).as_bytes());
    }

    /// Adds the digits of a number of up to 128 bits to the line.
    pub fn wide(&mut self, value: u128)
        requires room { length self.old + 39 ≤ line_room }
        ensures text { self.new ≡ self.old ++ decimal value }
        ensures short { length self.new ≤ length self.old + 39 }
    {
        self.text(Buffer::new().format(value).as_bytes());
    }

    /// Adds numbers to the line, separated by commas.
    pub fn numbers(&mut self, values: &[u64])
        requires few { length values.now ≤ 65 }
        requires room { length self.old + 1365 ≤ line_room }
        ensures text { self.new ≡ self.old ++ numbers_text values.now }
        ensures short { length self.new ≤ length self.old + 1365 }
    {
        let [first, others @ ..] = values else {
            return;
        };
        self.number(*first);
        for value in others {
            self.text(b",");
            self.number(*value);
        }
    }
}
