//! The units of a classic capture.
use crate::counts::Seen;
use crate::damage::Damage;
use crate::walk::{Stage, Walk};
use pcap_defs::MOST_CAPTURED;
use std::alloc::AllocError;

/// The length in bytes of a record before its captured bytes.
const RECORD_LEN: usize = 16;

/// Returns a number of four bytes.
pub(crate) fn long(big: bool, bytes: [u8; 4]) -> u32 {
    if big {
        u32::from_be_bytes(bytes)
    } else {
        u32::from_le_bytes(bytes)
    }
}

/// Returns a number of two bytes.
pub(crate) fn short(big: bool, bytes: [u8; 2]) -> u16 {
    if big {
        u16::from_be_bytes(bytes)
    } else {
        u16::from_le_bytes(bytes)
    }
}

/// Returns four bytes at a position, or zeros if they aren't there.
pub(crate) fn four(bytes: &[u8], at: usize) -> [u8; 4] {
    match bytes.split_at(at.min(bytes.len())).1 {
        [a, b, c, d, ..] => [*a, *b, *c, *d],
        _ => [0; 4],
    }
}

/// Returns two bytes at a position, or zeros if they aren't there.
pub(crate) fn two(bytes: &[u8], at: usize) -> [u8; 2] {
    match bytes.split_at(at.min(bytes.len())).1 {
        [a, b, ..] => [*a, *b],
        _ => [0; 2],
    }
}

/// Returns the byte order and the unit of time of a magic number, as `(big, nano)`.
fn magic_of(bytes: [u8; 4]) -> Option<(bool, bool)> {
    match bytes {
        [0xd4, 0xc3, 0xb2, 0xa1] => Some((false, false)),
        [0x4d, 0x3c, 0xb2, 0xa1] => Some((false, true)),
        [0xa1, 0xb2, 0xc3, 0xd4] => Some((true, false)),
        [0xa1, 0xb2, 0x3c, 0x4d] => Some((true, true)),
        _ => None,
    }
}

impl<'a> Walk<'a> {
    /// Reads the first 24 bytes of the file. Fails if out of memory.
    pub(crate) fn read_front(&mut self) -> Result<(), AllocError> {
        let magic = four(&self.unit, 0);
        if let [0x0a, 0x0d, 0x0d, 0x0a] = magic {
            return self.begin_blocks();
        }
        self.read_header(magic);
        Ok(())
    }

    /// Reads the header of a classic capture.
    fn read_header(&mut self, magic: [u8; 4]) {
        let Some((big, nano)) = magic_of(magic) else {
            return self.stop_at(0, Damage::NoMagic(magic));
        };
        let major = short(big, two(&self.unit, 4));
        if major != 2 {
            let minor = short(big, two(&self.unit, 6));
            return self.stop_at(0, Damage::Version(major, minor));
        }
        self.big = big;
        self.record.nano = nano;
        self.record.snapshot = long(big, four(&self.unit, 16));
        self.record.link = (long(big, four(&self.unit, 20)) & 0xffff) as u16;
        self.at = 24;
        self.begin(Stage::RecordHeader, RECORD_LEN);
    }

    /// Reads the sixteen bytes before a record's captured bytes.
    pub(crate) fn read_record_header(&mut self) {
        let big = self.big;
        let captured = long(big, four(&self.unit, 8));
        let len = long(big, four(&self.unit, 12));
        if captured > MOST_CAPTURED {
            return self.stop(Damage::RecordLong(captured, len, self.record.snapshot));
        }
        self.record.seconds = long(big, four(&self.unit, 0));
        self.record.fraction = long(big, four(&self.unit, 4));
        self.record.captured = captured;
        self.record.len = len;
        self.begin(Stage::RecordData, captured as usize);
        if captured == 0 {
            self.read_record();
        }
    }

    /// Counts the record, and begins the next one.
    pub(crate) fn read_record(&mut self) {
        let record = self.record;
        let second = if record.nano {
            1_000_000_000
        } else {
            1_000_000
        };
        if let Some(counts) = &mut self.counts {
            let seen = Seen {
                link: record.link,
                len: record.len,
                interface: 0,
                ticks: u64::from(record.seconds)
                    .saturating_mul(second)
                    .saturating_add(u64::from(record.fraction)),
            };
            counts.add(seen, &self.unit);
            counts.add_seconds(record.seconds, second <= u64::from(record.fraction));
        }
        self.go_past(u64::from(record.captured).saturating_add(16));
        self.begin(Stage::RecordHeader, RECORD_LEN);
    }
}
