//! Reads a capture piece by piece, to count its packets and to find an error.
use crate::counts::Counts;
use crate::damage::{Damage, Found};
use std::alloc::{AllocError, Global};

/// The length in bytes of a classic file header.
const HEADER_LEN: usize = 24;

/// What the next bytes of a capture are.
#[derive(Clone, Copy, PartialEq, Eq, Debug)]
pub(crate) enum Stage {
    /// The first 24 bytes of the file.
    Front,
    /// The sixteen bytes before a record's captured bytes.
    RecordHeader,
    /// The captured bytes of a record.
    RecordData,
    /// The first twelve bytes of a block.
    BlockStart,
    /// A whole block.
    Block,
    /// Nothing more is read.
    Stopped,
}

/// An interface of a section: its link type, and its snapshot length.
#[derive(Clone, Copy)]
pub(crate) struct Described {
    pub(crate) link: u16,
    pub(crate) snapshot: u32,
}

/// The values of a record's header, and of a classic capture's file header.
#[derive(Clone, Copy)]
pub(crate) struct Record {
    pub(crate) link: u16,
    pub(crate) snapshot: u32,
    pub(crate) nano: bool,
    pub(crate) seconds: u32,
    pub(crate) fraction: u32,
    pub(crate) captured: u32,
    pub(crate) len: u32,
}

/// Reads a capture piece by piece.
#[derive(Drop)]
pub struct Walk<'a> {
    pub(crate) counts: Option<Counts<'a>>,
    pub(crate) stage: Stage,
    /// The bytes of the unit that is being read: a header, captured bytes or a block.
    pub(crate) unit: Vec<u8>,
    /// The number of bytes of a whole unit.
    pub(crate) want: usize,
    /// The offset in bytes of the record or block.
    pub(crate) at: u64,
    /// The number of records or blocks read so far.
    pub(crate) number: u64,
    pub(crate) big: bool,
    pub(crate) record: Record,
    pub(crate) interfaces: Vec<Described>,
    pub(crate) found: Option<Found>,
}

impl<'a> Walk<'a> {
    /// Creates a walk from the start of a file. With `counts`, the packets are counted.
    pub fn new(alloc: Global, counts: Option<Counts<'a>>) -> Walk<'a> {
        Walk {
            counts,
            stage: Stage::Front,
            unit: Vec::new(alloc),
            want: HEADER_LEN,
            at: 0,
            number: 0,
            big: false,
            record: Record {
                link: 0,
                snapshot: 0,
                nano: false,
                seconds: 0,
                fraction: 0,
                captured: 0,
                len: 0,
            },
            interfaces: Vec::new(alloc),
            found: None,
        }
    }

    /// Returns whether the walk needs no more bytes.
    pub fn is_over(&self) -> bool {
        self.stage == Stage::Stopped
    }

    /// Reads the next bytes of the file. Fails if out of memory.
    pub fn feed(&mut self, bytes: &[u8]) -> Result<(), AllocError> {
        let mut rest = bytes;
        for _ in 0..bytes.len() {
            if rest.is_empty() || self.is_over() {
                break;
            }
            let missing = self.want.saturating_sub(self.unit.len());
            let count = missing.min(rest.len());
            self.unit.extend_from_slice(&rest[..count])?;
            rest = &rest[count..];
            if self.want <= self.unit.len() {
                self.finish_unit()?;
            }
        }
        Ok(())
    }

    /// Reads a whole unit, and begins the next one.
    fn finish_unit(&mut self) -> Result<(), AllocError> {
        match self.stage {
            Stage::Front => self.read_front()?,
            Stage::RecordHeader => self.read_record_header(),
            Stage::RecordData => self.read_record(),
            Stage::BlockStart => self.read_block_start()?,
            Stage::Block => self.read_block()?,
            Stage::Stopped => (),
        }
        Ok(())
    }

    /// Begins a unit of this many bytes.
    pub(crate) fn begin(&mut self, stage: Stage, want: usize) {
        self.stage = stage;
        self.want = want;
        self.unit.clear();
    }

    /// Stops at an error in the next record or block.
    pub(crate) fn stop(&mut self, damage: Damage) {
        self.stop_at(self.number.saturating_add(1), damage);
    }

    /// Stops at an error in the record or block of this number.
    pub(crate) fn stop_at(&mut self, number: u64, damage: Damage) {
        self.stage = Stage::Stopped;
        self.found = Some(Found {
            at: self.at,
            number,
            damage,
        });
    }

    /// Goes past a record or block of this many bytes.
    pub(crate) fn go_past(&mut self, count: u64) {
        self.at = self.at.saturating_add(count);
        self.number = self.number.saturating_add(1);
    }

    /// Ends the file. Returns its first error, if there is one.
    pub fn end(&mut self) -> Option<Found> {
        let there = self.unit.len();
        match self.stage {
            Stage::Front => self.stop_at(0, Damage::HeaderCut(there)),
            Stage::RecordHeader if there != 0 => self.stop(Damage::RecordCut(there)),
            Stage::RecordData => self.stop(Damage::DataCut(self.record.captured, there)),
            Stage::BlockStart if there != 0 => self.stop(Damage::StartCut(there)),
            Stage::Block => self.stop(Damage::BlockCut(self.total(), there)),
            _ => (),
        }
        self.found
    }

    /// Returns the counts.
    pub fn into_counts(self) -> Option<Counts<'a>> {
        self.counts
    }
}
