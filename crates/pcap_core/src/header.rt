//! The headers of a capture and of its records, and numbers in its byte order.
ghost use Rattle.std.specs.Prelude.{◌≡◌, ◌≤◌, ◌<◌, ◌+◌, ◌*◌, ◌^◌, ◌↔◌, Bool, length, IsTrue, IfOk, IfErr, IfSome, IfNone, IsSomeAnd, IsErr};
ghost use Rattle.pcap_defs.specs.Fault.{pcap_ng};
ghost use Rattle.pcap_defs.specs.Header.{HasMagic, IsHeader, IsHeaderFault, magic_number};
ghost use Rattle.pcap_defs.specs.Number.{long_at, short_at};
ghost use Rattle.pcap_core.specs.Faults.{fault_in};
ghost use Rattle.pcap_core.specs.Frames.{IsFrontFault, IsPreface, IsInLimits};

use crate::fault::CaptureFault;
use byteorder::{BigEndian, ByteOrder, LittleEndian};
use pcap_defs::{Head, MOST_CAPTURED};

/// The length of a file header in bytes.
pub const HEADER_LEN: usize = 24;

const PCAP_NG: [u8; 4] = [0x0A, 0x0D, 0x0D, 0x0A];

const MAJOR_VERSION: u16 = 2;

/// Returns the magic number at the start of a capture.
fn magic_number(nano: bool) -> u32
    ensures { result ≡ Rattle.pcap_defs.specs.Header.magic_number nano }
{
    if nano { 0xA1B2_3C4D } else { 0xA1B2_C3D4 }
}

fn has_magic(big: bool, nano: bool, bytes: &[u8]) -> bool
    requires { 4 ≤ length bytes.now }
    ensures { IsTrue result ↔ HasMagic big nano bytes.now }
{
    read_long(big, bytes, 0) == magic_number(nano)
}

/// Returns the byte order and the time unit of a magic number, as `(big, nano)`.
fn magic_of(bytes: &[u8]) -> Option<(bool, bool)>
    requires { 4 ≤ length bytes.now }
    ensures some { IfSome result (λ m. HasMagic m.0 m.1 bytes.now) }
    ensures none { IfNone result ((big nano : Bool) → HasMagic big nano bytes.now → ⊥) }
{
    if has_magic(false, false, bytes) {
        Some((false, false))
    } else if has_magic(false, true, bytes) {
        Some((false, true))
    } else if has_magic(true, false, bytes) {
        Some((true, false))
    } else if has_magic(true, true, bytes) {
        Some((true, true))
    } else {
        None
    }
}

/// Returns whether a file is in the newer format pcapng. `front` has at least its first 24 bytes,
/// or all if there are fewer.
pub fn is_newer(front: &[u8]) -> bool
    ensures { IsTrue result ↔ IsHeaderFault front.now pcap_ng }
{
    front.len() >= HEADER_LEN && front.starts_with(&PCAP_NG)
}

/// Parses a file header. `bytes` are the first 24 bytes of the file, or all if there are fewer.
pub fn head_in(bytes: &[u8]) -> Result<Head, CaptureFault>
    requires { length bytes.now ≤ 24 }
    ensures header { IfOk result (λ head. IsHeader head bytes.now) }
    ensures fault { IfErr result (λ e. IsSomeAnd (fault_in e) (IsHeaderFault bytes.now)) }
{
    if bytes.len() < HEADER_LEN {
        return Err(CaptureFault::HeaderCut);
    }
    if is_newer(bytes) {
        return Err(CaptureFault::PcapNg);
    }
    let (big, nano) = magic_of(bytes).ok_or(CaptureFault::BadMagic)?;
    if read_short(big, bytes, 4) != MAJOR_VERSION {
        return Err(CaptureFault::Version);
    }
    let link = (read_long(big, bytes, 20) & 0xFFFF) as u16;
    Ok(Head { link, nano, big })
}

/// The length in bytes of a record before its captured bytes.
pub const RECORD_LEN: usize = 16;

/// The values before a record's captured bytes.
#[derive(Clone, Copy)]
pub struct RecordHeader {
    pub moment: u64,
    pub captured: u32,
    pub len: u32,
}

/// Parses a record header. The byte order is chosen once for its four numbers.
#[inline(always)]
pub fn record_header_in(head: Head, bytes: &[u8]) -> RecordHeader
    requires { length bytes.now ≡ 16 }
    ensures values { IsPreface head result bytes.now }
    ensures bound { result.moment < 2 ^ 62 }
{
    let (seconds, fraction, captured, len) = if head.big {
        (
            BigEndian::read_u32(bytes),
            BigEndian::read_u32(&bytes[4..]),
            BigEndian::read_u32(&bytes[8..]),
            BigEndian::read_u32(&bytes[12..]),
        )
    } else {
        (
            LittleEndian::read_u32(bytes),
            LittleEndian::read_u32(&bytes[4..]),
            LittleEndian::read_u32(&bytes[8..]),
            LittleEndian::read_u32(&bytes[12..]),
        )
    };
    let fraction = u64::from(fraction);
    let nanos = if head.nano { fraction } else { fraction * 1000 };
    RecordHeader {
        moment: u64::from(seconds) * 1_000_000_000 + nanos,
        captured,
        len,
    }
}

/// Parses the header of the record after `count` records. `bytes` are its sixteen bytes, or all
/// that are left if there are fewer.
pub fn checked_record_header_in(
    head: Head,
    count: u32,
    bytes: &[u8],
) -> Result<RecordHeader, CaptureFault>
    requires some { 0 < length bytes.now }
    requires bound { length bytes.now ≤ 16 }
    ensures values { IfOk result (λ p. IsPreface head p bytes.now) }
    ensures limits { IfOk result (IsInLimits count) }
    ensures fault { IfErr result (λ e. IsSomeAnd (fault_in e)
        (IsFrontFault head.big count bytes.now)) }
{
    let number = u64::from(count) + 1;
    if count == u32::MAX {
        return Err(CaptureFault::TooMany);
    }
    if bytes.len() < RECORD_LEN {
        return Err(CaptureFault::RecordCut(number));
    }
    let header = record_header_in(head, bytes);
    if header.captured > MOST_CAPTURED {
        return Err(CaptureFault::RecordLong(number));
    }
    Ok(header)
}

/// Reads the four-byte number at `at`, big-endian if `big` and else little-endian.
pub fn read_long(big: bool, bytes: &[u8], at: usize) -> u32
    requires { at + 4 ≤ length bytes.now }
    ensures { result ≡ long_at big at bytes.now }
{
    if big {
        BigEndian::read_u32(&bytes[at..])
    } else {
        LittleEndian::read_u32(&bytes[at..])
    }
}

/// Reads the two-byte number at `at`, big-endian if `big` and else little-endian.
pub fn read_short(big: bool, bytes: &[u8], at: usize) -> u16
    requires { at + 2 ≤ length bytes.now }
    ensures { result ≡ short_at big at bytes.now }
{
    if big {
        BigEndian::read_u16(&bytes[at..])
    } else {
        LittleEndian::read_u16(&bytes[at..])
    }
}
