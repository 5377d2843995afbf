//! Writes the header of a capture, and its records.
ghost use Rattle.std.specs.Prelude.{◌≡◌, ◌≤◌, ◌<◌, ◌++◌, ◌^◌, length, OnOk, OnErr, IsErrOf};
ghost use Rattle.outside_core.specs.Faults.{Rose};
ghost use Rattle.outside_core.specs.Kept.{KeepsSink};
ghost use Rattle.outside_core.specs.Written.{Appended, AppendedPrefix};
ghost use Rattle.pcap_defs.specs.Record.{most_captured};
ghost use Rattle.pcap_core.specs.Bytes.{header_bytes, record_bytes, record_front};

use byteorder::{ByteOrder, LittleEndian};
use outside_core::{Sink, SinkError, write_all};
use pcap_defs::MOST_CAPTURED;

/// The magic number of captures whose fractions count nanoseconds.
const MAGIC_NUMBER: u32 = 0xA1B2_3C4D;

const MAJOR_VERSION: u16 = 2;

const MINOR_VERSION: u16 = 4;

/// Returns the file header. Its time zone and significant figures are 0.
fn header(link: u16) -> [u8; 24]
    ensures { result ≡ header_bytes link }
{
    let mut bytes = [0u8; 24];
    LittleEndian::write_u32(&mut bytes, MAGIC_NUMBER);
    LittleEndian::write_u16(&mut bytes[4..], MAJOR_VERSION);
    LittleEndian::write_u16(&mut bytes[6..], MINOR_VERSION);
    LittleEndian::write_u32(&mut bytes[16..], MOST_CAPTURED);
    LittleEndian::write_u32(&mut bytes[20..], u32::from(link));
    bytes
}

/// Returns the header of a record: its timestamp in seconds and nanoseconds, its captured length
/// and the packet's original length, both in bytes.
pub fn record_front(seconds: u32, nanos: u32, captured: u32, len: u32) -> [u8; 16]
    ensures { result ≡ record_front seconds nanos captured len }
{
    let mut bytes = [0u8; 16];
    LittleEndian::write_u32(&mut bytes, seconds);
    LittleEndian::write_u32(&mut bytes[4..], nanos);
    LittleEndian::write_u32(&mut bytes[8..], captured);
    LittleEndian::write_u32(&mut bytes[12..], len);
    bytes
}

/// Writes the file header of a capture with this link type.
pub fn put_head<K: Sink>(sink: &mut K, link: u16) -> Result<(), SinkError>
    ensures bytes { OnOk result (Appended (K.written sink.old) (K.written sink.new)
        (header_bytes link)) }
    ensures part { OnErr result (AppendedPrefix (K.written sink.old) (K.written sink.new)
        (header_bytes link)) }
    ensures kept { KeepsSink K.written K.faults sink.old sink.new }
    ensures cause { IsErrOf result SinkError.Failed → Rose (K.faults sink.old) (K.faults sink.new) }
{
    write_all(sink, &header(link))
}

/// Writes a record: its timestamp in seconds and nanoseconds, the packet's original length in
/// bytes, and its captured bytes.
pub fn put_record<K: Sink>(
    sink: &mut K,
    seconds: u32,
    nanos: u32,
    len: u32,
    bytes: &[u8],
) -> Result<(), SinkError>
    requires fraction { nanos < 10 ^ 9 }
    requires short { length bytes.now ≤ most_captured }

    ensures bytes { OnOk result (Appended (K.written sink.old) (K.written sink.new)
        (record_bytes seconds nanos len bytes.now)) }
    ensures part { OnErr result (AppendedPrefix (K.written sink.old) (K.written sink.new)
        (record_bytes seconds nanos len bytes.now)) }
    ensures kept { KeepsSink K.written K.faults sink.old sink.new }
    ensures cause { IsErrOf result SinkError.Failed → Rose (K.faults sink.old) (K.faults sink.new) }
{
    write_all(sink, &record_front(seconds, nanos, bytes.len() as u32, len))?;
    write_all(sink, bytes)
}
