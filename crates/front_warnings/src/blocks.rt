//! The blocks of a pcapng capture.
use crate::classic::{four, long, short, two};
use crate::counts::Seen;
use crate::damage::Damage;
use crate::walk::{Described, Stage, Walk};
use pcap_defs::MOST_CAPTURED;
use pcapng_defs::{MOST_INTERFACES, MOST_TOTAL};
use std::alloc::AllocError;

/// The length in bytes of a block's type, total length and first four bytes after them.
const START_LEN: usize = 12;

/// The block types that are read, and that of the obsolete packet block.
const SECTION: u32 = 0x0A0D_0D0A;

const INTERFACE: u32 = 1;

const OBSOLETE: u32 = 2;

const SIMPLE: u32 = 3;

const ENHANCED: u32 = 6;

/// Returns the least length in bytes of a block of a type.
fn least_total(kind: u32) -> u32 {
    match kind {
        SECTION => 28,
        INTERFACE => 20,
        ENHANCED => 32,
        SIMPLE => 16,
        _ => 12,
    }
}

/// Returns the byte order of a section's order bytes.
fn order_of(bytes: [u8; 4]) -> Option<bool> {
    match bytes {
        [0x4d, 0x3c, 0x2b, 0x1a] => Some(false),
        [0x1a, 0x2b, 0x3c, 0x4d] => Some(true),
        _ => None,
    }
}

impl<'a> Walk<'a> {
    /// Begins the first block, of which the first 24 bytes are read. Fails if out of memory.
    pub(crate) fn begin_blocks(&mut self) -> Result<(), AllocError> {
        self.stage = Stage::BlockStart;
        self.read_block_start()
    }

    /// Returns the block's type.
    fn kind(&self) -> u32 {
        long(self.big, four(&self.unit, 0))
    }

    /// Returns the block's total length.
    pub(crate) fn total(&self) -> u32 {
        long(self.big, four(&self.unit, 4))
    }

    /// Stops at an error in the next block.
    fn stop_block(&mut self, damage: Damage) -> Result<(), AllocError> {
        self.stop(damage);
        Ok(())
    }

    /// Reads the first bytes of a block, and begins the rest of it. Fails if out of memory.
    pub(crate) fn read_block_start(&mut self) -> Result<(), AllocError> {
        if let [0x0a, 0x0d, 0x0d, 0x0a] = four(&self.unit, 0) {
            let order = four(&self.unit, 8);
            let Some(big) = order_of(order) else {
                return self.stop_block(Damage::OrderBytes(order));
            };
            self.big = big;
        }
        let (kind, total) = (self.kind(), self.total());
        let least = least_total(kind);
        if total % 4 != 0 || total < least || MOST_TOTAL < total {
            return self.stop_block(Damage::BlockLength(kind, total, least));
        }
        self.stage = Stage::Block;
        self.want = total as usize;
        if self.want <= self.unit.len() {
            return self.read_block();
        }
        Ok(())
    }

    /// Reads a whole block, and begins the next one. Fails if out of memory.
    pub(crate) fn read_block(&mut self) -> Result<(), AllocError> {
        let total = self.total();
        let last = long(
            self.big,
            four(&self.unit, (total as usize).saturating_sub(4)),
        );
        if last != total {
            return self.stop_block(Damage::TwoLengths(total, last));
        }
        self.read_body(total)?;
        if !self.is_over() {
            self.go_past(u64::from(total));
            self.begin(Stage::BlockStart, START_LEN);
        }
        Ok(())
    }

    /// Reads the body of a block. Fails if out of memory.
    fn read_body(&mut self, total: u32) -> Result<(), AllocError> {
        match self.kind() {
            SECTION => self.read_section(),
            INTERFACE => self.read_interface()?,
            ENHANCED => self.read_enhanced(total),
            SIMPLE => self.read_simple(total),
            OBSOLETE => {
                if let Some(counts) = &mut self.counts {
                    counts.obsolete = counts.obsolete.saturating_add(1);
                }
            }
            _ => (),
        }
        Ok(())
    }

    /// Reads a section header.
    fn read_section(&mut self) {
        let major = short(self.big, two(&self.unit, 12));
        let minor = short(self.big, two(&self.unit, 14));
        if major != 1 {
            return self.stop(Damage::NgVersion(major, minor));
        }
        self.interfaces.clear();
    }

    /// Reads the description of an interface. Fails if out of memory.
    fn read_interface(&mut self) -> Result<(), AllocError> {
        if MOST_INTERFACES <= self.interfaces.len() {
            return self.stop_block(Damage::Interfaces);
        }
        self.interfaces.push(Described {
            link: short(self.big, two(&self.unit, 8)),
            snapshot: long(self.big, four(&self.unit, 12)),
        })?;
        Ok(())
    }

    /// Reads an enhanced packet.
    fn read_enhanced(&mut self, total: u32) {
        let big = self.big;
        let interface = long(big, four(&self.unit, 8));
        let count = self.interfaces.len();
        let Some(described) = self.interfaces.get(interface as usize) else {
            return self.stop(Damage::NoInterface(interface, count));
        };
        let high = u64::from(long(big, four(&self.unit, 12)));
        let low = u64::from(long(big, four(&self.unit, 16)));
        let seen = Seen {
            link: described.link,
            len: long(big, four(&self.unit, 24)),
            interface,
            ticks: high * 4_294_967_296 + low,
        };
        let captured = long(big, four(&self.unit, 20));
        self.read_packet(seen, 28, captured, total);
    }

    /// Reads a simple packet.
    fn read_simple(&mut self, total: u32) {
        let Some(described) = self.interfaces.first() else {
            return self.stop(Damage::NoInterface(0, 0));
        };
        let len = long(self.big, four(&self.unit, 8));
        let captured = if described.snapshot == 0 {
            len
        } else {
            len.min(described.snapshot)
        };
        let seen = Seen {
            link: described.link,
            len,
            interface: u32::MAX,
            ticks: 0,
        };
        self.read_packet(seen, 12, captured, total);
    }

    /// Counts a packet whose captured bytes begin at `at`.
    fn read_packet(&mut self, seen: Seen, at: u32, captured: u32, total: u32) {
        let room = total.saturating_sub(4).saturating_sub(at);
        if captured > MOST_CAPTURED || room < captured {
            return self.stop(Damage::PacketLong(captured, room));
        }
        let at = at as usize;
        let end = at.saturating_add(captured as usize);
        if let (Some(counts), Some(bytes)) = (&mut self.counts, self.unit.get(at..end)) {
            counts.add(seen, bytes);
        }
    }
}
