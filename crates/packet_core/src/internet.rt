//! IP headers with the ports after them, and the flow of a packet. Numbers are in network byte order
//! (big-endian).
ghost use Rattle.std.specs.Prelude.{◌≡◌, ◌≤◌, ◌<◌, ◌+◌, ◌*◌, ◌^◌, length};
ghost use Rattle.packet_defs.specs.Flow.{flow_of};
ghost use Rattle.packet_defs.specs.Internet.{no_fields, is_ipv4, ipv4_fields, ipv4_at, is_ipv6, ipv6_fields, ipv6_at};

use byteorder::{BigEndian, ByteOrder};
use packet_defs::Fields;
use rank_defs::FlowKey;

/// The length in bytes of an IPv4 header without options (RFC 791 3.1).
const IPV4_LEN: usize = 20;

/// The length in bytes of an IPv6 header (RFC 8200 3).
pub const IPV6_LEN: usize = 40;

pub const TCP: u8 = 6;

const UDP: u8 = 17;

/// Returns whether an IPv4 header begins at this position.
#[inline(always)]
pub fn is_ipv4(bytes: &[u8], at: usize) -> bool
    requires { at < 2 ^ 32 }
    ensures { result ≡ is_ipv4 at bytes.now }
{
    at + IPV4_LEN <= bytes.len() && matches!(bytes[at], 0x45..=0x4F)
}

/// Returns whether an IPv6 header begins at this position.
pub fn is_ipv6(bytes: &[u8], at: usize) -> bool
    requires { at < 2 ^ 32 }
    ensures { result ≡ is_ipv6 at bytes.now }
{
    at + IPV6_LEN <= bytes.len() && bytes[at] >> 4 == 6
}

/// Reads the fields of the IPv4 header that begins at this position, and the ports after it.
#[inline(always)]
pub fn ipv4_fields(bytes: &[u8], at: usize) -> Fields
    requires { at + 20 ≤ length bytes.now }
    ensures { result ≡ ipv4_fields at bytes.now }
{
    let behind = at + 4 * usize::from(bytes[at] & 0xF);
    let proto = bytes[at + 9];
    let fields = Fields {
        vlan: None,
        version: Some(4),
        dscp: Some(bytes[at + 1] >> 2),
        proto: Some(proto),
        source: Some(u128::from(BigEndian::read_u32(&bytes[at + 12..]))),
        target: Some(u128::from(BigEndian::read_u32(&bytes[at + 16..]))),
        sport: None,
        dport: None,
    };
    if BigEndian::read_u16(&bytes[at + 6..]) & 0x1FFF != 0 {
        return fields;
    }
    if behind + 4 > bytes.len() {
        return fields;
    }
    match proto {
        TCP | UDP => Fields {
            sport: Some(BigEndian::read_u16(&bytes[behind..])),
            dport: Some(BigEndian::read_u16(&bytes[behind + 2..])),
            ..fields
        },
        _ => fields,
    }
}

/// Reads the fields of an IPv4 header at this position, or no fields if none begins there.
pub fn read_ipv4(bytes: &[u8], at: usize) -> Fields
    requires { at < 2 ^ 32 }
    ensures { result ≡ ipv4_at at bytes.now }
{
    if !is_ipv4(bytes, at) {
        return no_fields();
    }
    ipv4_fields(bytes, at)
}

/// Reads the fields of the IPv6 header that begins at this position, and the ports after it.
fn ipv6_fields(bytes: &[u8], at: usize) -> Fields
    requires { at + 40 ≤ length bytes.now }
    ensures { result ≡ ipv6_fields at bytes.now }
{
    let proto = bytes[at + 6];
    let traffic_class = (BigEndian::read_u16(&bytes[at..]) >> 4 & 0xFF) as u8;
    let fields = Fields {
        vlan: None,
        version: Some(6),
        dscp: Some(traffic_class >> 2),
        proto: Some(proto),
        source: Some(BigEndian::read_u128(&bytes[at + 8..])),
        target: Some(BigEndian::read_u128(&bytes[at + 24..])),
        sport: None,
        dport: None,
    };
    if at + IPV6_LEN + 4 > bytes.len() {
        return fields;
    }
    match proto {
        TCP | UDP => Fields {
            sport: Some(BigEndian::read_u16(&bytes[at + IPV6_LEN..])),
            dport: Some(BigEndian::read_u16(&bytes[at + IPV6_LEN + 2..])),
            ..fields
        },
        _ => fields,
    }
}

/// Reads the fields of an IPv6 header at this position, or no fields if none begins there.
pub fn read_ipv6(bytes: &[u8], at: usize) -> Fields
    requires { at < 2 ^ 32 }
    ensures { result ≡ ipv6_at at bytes.now }
{
    if !is_ipv6(bytes, at) {
        return no_fields();
    }
    ipv6_fields(bytes, at)
}

/// Returns the fields of a packet that has none.
pub fn no_fields() -> Fields
    ensures { result ≡ Rattle.packet_defs.specs.Internet.no_fields }
{
    Fields {
        vlan: None,
        version: None,
        dscp: None,
        proto: None,
        source: None,
        target: None,
        sport: None,
        dport: None,
    }
}

/// Returns the flow of a packet. Absent fields are 0 in it.
#[inline(always)]
pub fn flow(fields: &Fields) -> FlowKey
    ensures { result ≡ flow_of fields.now }
{
    FlowKey {
        version: fields.version.unwrap_or(0),
        source: fields.source.unwrap_or(0),
        target: fields.target.unwrap_or(0),
        proto: fields.proto.unwrap_or(0),
        sport: fields.sport.unwrap_or(0),
        dport: fields.dport.unwrap_or(0),
    }
}
