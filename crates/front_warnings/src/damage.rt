//! Details of an error in a capture.
use pcap_defs::MOST_CAPTURED;
use pcapng_defs::MOST_TOTAL;
use std::alloc::{AllocError, Global};

/// Why a capture can't be read on, with the numbers that were read.
#[derive(Clone, Copy, PartialEq, Eq, Debug)]
pub enum Damage {
    /// The file has only this many bytes of a header's 24.
    HeaderCut(usize),
    /// The file begins with other bytes than a magic number.
    NoMagic([u8; 4]),
    /// The major and minor version of a classic capture.
    Version(u16, u16),
    /// Only this many of a record's sixteen bytes are left.
    RecordCut(usize),
    /// The captured length of a record, and how many of these bytes are left.
    DataCut(u32, usize),
    /// The captured and original length of a record, and the file header's snapshot length.
    RecordLong(u32, u32, u32),
    /// Only this many of a block's first twelve bytes are left.
    StartCut(usize),
    /// The total length of a block, and how many of these bytes are left.
    BlockCut(u32, usize),
    /// The type and the total length of a block, and the least length of that type.
    BlockLength(u32, u32, u32),
    /// The bytes in place of a section's order bytes.
    OrderBytes([u8; 4]),
    /// The major and minor version of a section.
    NgVersion(u16, u16),
    /// The number of an interface, and how many the section describes.
    NoInterface(u32, usize),
    /// The captured length of a packet, and how many bytes its block has for it.
    PacketLong(u32, u32),
    /// A section describes one interface too many.
    Interfaces,
    /// The two total lengths of a block.
    TwoLengths(u32, u32),
}

/// An error in a capture: its position, and what was read there.
#[derive(Clone, Copy, PartialEq, Eq, Debug)]
pub struct Found {
    /// The offset in bytes of the header, record or block.
    pub at: u64,
    /// The number of the record or block, from 1; 0 is the header of a classic capture.
    pub number: u64,
    pub damage: Damage,
}

impl Damage {
    /// Returns the code with which the error is reported.
    pub fn code(&self) -> u64 {
        match self {
            Damage::HeaderCut(_) => 1,
            Damage::NoMagic(_) => 2,
            Damage::Version(..) => 4,
            Damage::RecordCut(_) => 5,
            Damage::DataCut(..) => 6,
            Damage::RecordLong(..) => 7,
            Damage::StartCut(_) | Damage::BlockCut(..) => 11,
            Damage::BlockLength(..) => 12,
            Damage::OrderBytes(_) => 13,
            Damage::NgVersion(..) => 14,
            Damage::NoInterface(..) => 15,
            Damage::PacketLong(..) => 16,
            Damage::Interfaces => 17,
            Damage::TwoLengths(..) => 19,
        }
    }
}

/// Returns the name of a block type.
fn block_name(kind: u32) -> &'static str {
    match kind {
        0x0A0D_0D0A => "section header",
        1 => "interface description",
        2 => "obsolete packet block",
        3 => "simple packet block",
        4 => "name resolution block",
        5 => "interface statistics",
        6 => "enhanced packet block",
        10 => "decryption secrets",
        0x0000_0BAD | 0x4000_0BAD => "custom block",
        _ => "type that isn't read",
    }
}

/// Returns how many bytes are missing, if `whole` were expected.
fn missing(whole: u32, there: usize) -> u64 {
    u64::from(whole).saturating_sub(there as u64)
}

/// Returns what four bytes are, in hexadecimal. Fails if out of memory.
fn hex(alloc: Global, bytes: [u8; 4]) -> Result<String, AllocError> {
    let [a, b, c, d] = bytes;
    format!(in alloc; "{a:02x} {b:02x} {c:02x} {d:02x}")
}

/// Returns why a total length is impossible. Fails if out of memory.
fn length_text(alloc: Global, kind: u32, total: u32, least: u32) -> Result<String, AllocError> {
    let name = block_name(kind);
    if total > MOST_TOTAL {
        format!(in alloc;
            "total length {total} of a block of type {kind} ({name}), above the limit of {MOST_TOTAL}"
        )
    } else if total < least {
        format!(in alloc;
            "total length {total} of a block of type {kind} ({name}), which has at least {least} bytes"
        )
    } else {
        format!(in alloc;
            "total length {total} of a block of type {kind} ({name}), which isn't a multiple of 4"
        )
    }
}

/// Returns why a packet's captured length is impossible. Fails if out of memory.
fn captured_text(alloc: Global, captured: u32, room: u32) -> Result<String, AllocError> {
    if captured > MOST_CAPTURED {
        format!(in alloc; "captured length {captured}, above the limit of {MOST_CAPTURED}")
    } else {
        format!(in alloc; "captured length {captured}, and the block has {room} bytes for it")
    }
}

/// Returns what was read of a classic capture. Fails if out of memory.
fn classic_text(alloc: Global, damage: Damage) -> Result<String, AllocError> {
    match damage {
        Damage::HeaderCut(there) => {
            let more = missing(24, there);
            format!(in alloc;
                "the file ends after {there} bytes: {more} of the header's 24 are missing"
            )
        }
        Damage::NoMagic(bytes) => {
            let found = hex(alloc, bytes)?;
            format!(in alloc;
                "bytes {found}; a pcap file begins with d4 c3 b2 a1 or 4d 3c b2 a1, or these in reverse, and a pcapng file with 0a 0d 0d 0a"
            )
        }
        Damage::Version(major, minor) => {
            format!(in alloc; "version {major}.{minor}; only 2.x is read")
        }
        Damage::RecordCut(there) => {
            let more = missing(16, there);
            format!(in alloc;
                "the file ends after {there} bytes of the packet's header: {more} of 16 are missing"
            )
        }
        Damage::DataCut(captured, there) => {
            let more = missing(captured, there);
            format!(in alloc;
                "captured length {captured}, and {there} bytes are left in the file: {more} are missing"
            )
        }
        Damage::RecordLong(captured, len, snapshot) => {
            format!(in alloc;
                "captured length {captured}, above the limit of {MOST_CAPTURED}; original length {len}, snapshot length {snapshot}"
            )
        }
        _ => block_text(alloc, damage),
    }
}

/// Returns what was read of a pcapng capture. Fails if out of memory.
fn block_text(alloc: Global, damage: Damage) -> Result<String, AllocError> {
    match damage {
        Damage::StartCut(there) => {
            let more = missing(12, there);
            format!(in alloc;
                "the file ends after {there} bytes of the block: {more} of its first 12 are missing"
            )
        }
        Damage::BlockCut(total, there) => {
            let more = missing(total, there);
            format!(in alloc;
                "total length {total}, and {there} bytes are left in the file: {more} are missing"
            )
        }
        Damage::BlockLength(kind, total, least) => length_text(alloc, kind, total, least),
        Damage::OrderBytes(bytes) => {
            let found = hex(alloc, bytes)?;
            format!(in alloc; "order bytes {found}; a section has 4d 3c 2b 1a or 1a 2b 3c 4d")
        }
        Damage::NgVersion(major, minor) => {
            format!(in alloc; "version {major}.{minor}; only 1.x is read")
        }
        Damage::NoInterface(named, described) => {
            format!(in alloc;
                "interface {named}, counted from 0, and the section describes {described} before this block"
            )
        }
        Damage::PacketLong(captured, room) => captured_text(alloc, captured, room),
        Damage::TwoLengths(first, second) => {
            format!(in alloc; "total length {first} at the block's start and {second} at its end")
        }
        _ => format!(in alloc; "1,024 interfaces are described before this one"),
    }
}

/// Returns the offset of an error in a capture, and what was read there, as a line of a message.
/// An empty file has none. Fails if out of memory.
pub fn damage_text(alloc: Global, found: Found) -> Result<String, AllocError> {
    if found.damage == Damage::HeaderCut(0) {
        return Ok(String::new(alloc));
    }
    let what = classic_text(alloc, found.damage)?;
    let at = found.at;
    format!(in alloc; "  at byte {at}: {what}\n")
}
