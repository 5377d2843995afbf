//! The header fields that only policies of version 3 test.
ghost use Rattle.std.specs.Prelude.{◌≡◌, ◌≤◌, ◌<◌, ◌+◌, ◌*◌, ◌^◌, length};
ghost use Rattle.packet_defs.specs.Internet.{behind_ipv4, is_first_fragment};
ghost use Rattle.packet_defs.specs.Extra.{no_extra, priority_with, flags_of, ipv4_flags, ipv6_flags, carried_flags, carried_extra, payload_extra, ethernet_extra, cooked_extra, ipv4_extra, ipv6_extra, raw_extra, family_extra, null_extra, loop_extra, headed_extra, extra_of};

use crate::internet::{IPV6_LEN, TCP, is_ipv4, is_ipv6};
use crate::links::{
    COOKED, COOKED_2, COOKED_2_LEN, COOKED_2_TYPE, COOKED_LEN, COOKED_TYPE, ETHERNET, FAMILY_IPV4,
    FAMILY_LEN, IPV4, IPV6, IPV6_DARWIN, IPV6_FREEBSD, IPV6_OPENBSD, LOOP, NULL, RAW, RAW_12,
    RAW_14, RAW_IPV4, RAW_IPV6, TYPE_PLACE, host_family, read_frame, tag, type_at, type_place_from,
};
use byteorder::{BigEndian, ByteOrder};
use packet_defs::ExtraFields;

/// The length in bytes of a TCP header up to its flags.
const UP_TO_FLAGS: usize = 14;

/// Returns the extra fields of a packet that has none.
pub fn no_extra() -> ExtraFields
    ensures { result ≡ Rattle.packet_defs.specs.Extra.no_extra }
{
    ExtraFields {
        pcp: None,
        ethertype: None,
        flags: None,
    }
}

/// Returns the priority of a tag whose type is at `at` and whose id is at `id`, if the type after
/// the tag is captured too.
fn priority_with(bytes: &[u8], at: usize, id: usize) -> Option<u8>
    requires order { at ≤ id }
    requires bound { id < 2 ^ 33 }
    ensures { result ≡ priority_with at id bytes.now }
{
    if id + 4 > bytes.len() || tag(bytes, at, id).is_none() {
        return None;
    }
    Some((BigEndian::read_u16(&bytes[id..]) >> 13) as u8)
}

/// Returns the flags of a header of this protocol, if it is TCP's.
fn flags_of(proto: u8, bytes: &[u8], at: usize) -> Option<u8>
    requires { at < 2 ^ 63 }
    ensures { result ≡ flags_of proto at bytes.now }
{
    if proto == TCP && at + UP_TO_FLAGS <= bytes.len() {
        Some(bytes[at + 13])
    } else {
        None
    }
}

/// Returns the position after an IPv4 header.
fn behind_ipv4(bytes: &[u8], at: usize) -> usize
    requires { at + 1 ≤ length bytes.now }
    ensures value { result ≡ behind_ipv4 at bytes.now }
    ensures bound { result ≤ at + 60 }
{
    at + 4 * usize::from(bytes[at] & 0xF)
}

/// Returns whether an IPv4 header is that of a first fragment, or of a whole packet.
fn is_first_fragment(bytes: &[u8], at: usize) -> bool
    requires { at + 20 ≤ length bytes.now }
    ensures { result ≡ is_first_fragment at bytes.now }
{
    BigEndian::read_u16(&bytes[at + 6..]) & 0x1FFF == 0
}

/// Returns the flags after an IPv4 header, if one begins at this position.
fn ipv4_flags(bytes: &[u8], at: usize) -> Option<u8>
    requires { at < 2 ^ 32 }
    ensures { result ≡ ipv4_flags at bytes.now }
{
    if is_ipv4(bytes, at) && is_first_fragment(bytes, at) {
        flags_of(bytes[at + 9], bytes, behind_ipv4(bytes, at))
    } else {
        None
    }
}

/// Returns the flags directly after an IPv6 header, if one begins at this position.
fn ipv6_flags(bytes: &[u8], at: usize) -> Option<u8>
    requires { at < 2 ^ 32 }
    ensures { result ≡ ipv6_flags at bytes.now }
{
    if is_ipv6(bytes, at) {
        flags_of(bytes[at + 6], bytes, at + IPV6_LEN)
    } else {
        None
    }
}

/// Returns the flags of a payload of this type at a position.
fn carried_flags(carried: Option<u16>, bytes: &[u8], at: usize) -> Option<u8>
    requires { at < 2 ^ 32 }
    ensures { result ≡ carried_flags carried at bytes.now }
{
    match carried {
        Some(IPV4) => ipv4_flags(bytes, at),
        Some(IPV6) => ipv6_flags(bytes, at),
        _ => None,
    }
}

/// Returns the extra fields of a packet with this priority and a payload of this type.
fn carried_extra(pcp: Option<u8>, ethertype: Option<u16>, bytes: &[u8], at: usize) -> ExtraFields
    requires { at < 2 ^ 32 }
    ensures { result ≡ carried_extra pcp ethertype at bytes.now }
{
    ExtraFields {
        pcp,
        ethertype,
        flags: carried_flags(ethertype, bytes, at),
    }
}

/// Returns the same, if the type is at this position and the payload follows it.
fn payload_extra(pcp: Option<u8>, bytes: &[u8], at: usize) -> ExtraFields
    requires { at < 2 ^ 31 }
    ensures { result ≡ payload_extra pcp at bytes.now }
{
    carried_extra(pcp, type_at(bytes, at), bytes, at + 2)
}

/// Reads the extra fields of a frame.
fn ethernet_extra(bytes: &[u8]) -> ExtraFields
    ensures { result ≡ ethernet_extra bytes.now }
{
    let pcp = priority_with(bytes, TYPE_PLACE, TYPE_PLACE + 2);
    payload_extra(pcp, bytes, read_frame(bytes).place)
}

/// Reads the extra fields of a packet whose cooked header has the protocol type at `at` and ends at
/// `end`.
fn cooked_extra(bytes: &[u8], at: usize, end: usize) -> ExtraFields
    requires order { at ≤ end }
    requires bound { end < 2 ^ 16 }
    ensures { result ≡ cooked_extra at end bytes.now }
{
    if tag(bytes, at, end).is_none() {
        return carried_extra(None, type_at(bytes, at), bytes, end);
    }
    let pcp = priority_with(bytes, at, end);
    payload_extra(pcp, bytes, type_place_from(bytes, end + 2))
}

/// Reads the extra fields of a packet that begins with an IPv4 header.
fn ipv4_extra(bytes: &[u8]) -> ExtraFields
    ensures { result ≡ ipv4_extra bytes.now }
{
    if !is_ipv4(bytes, 0) {
        return no_extra();
    }
    ExtraFields {
        pcp: None,
        ethertype: Some(IPV4),
        flags: ipv4_flags(bytes, 0),
    }
}

/// Reads the extra fields of a packet that begins with an IPv6 header.
fn ipv6_extra(bytes: &[u8]) -> ExtraFields
    ensures { result ≡ ipv6_extra bytes.now }
{
    if !is_ipv6(bytes, 0) {
        return no_extra();
    }
    ExtraFields {
        pcp: None,
        ethertype: Some(IPV6),
        flags: ipv6_flags(bytes, 0),
    }
}

/// Reads the extra fields of a packet that begins with an IP header.
fn raw_extra(bytes: &[u8]) -> ExtraFields
    ensures { result ≡ raw_extra bytes.now }
{
    if is_ipv4(bytes, 0) {
        ipv4_extra(bytes)
    } else {
        ipv6_extra(bytes)
    }
}

/// Reads the extra fields of the payload of an address family.
fn family_extra(family: u32, bytes: &[u8]) -> ExtraFields
    ensures { result ≡ family_extra family bytes.now }
{
    let flags = match family {
        FAMILY_IPV4 => ipv4_flags(bytes, FAMILY_LEN),
        IPV6_OPENBSD | IPV6_FREEBSD | IPV6_DARWIN => ipv6_flags(bytes, FAMILY_LEN),
        _ => None,
    };
    ExtraFields {
        flags,
        ..no_extra()
    }
}

/// Reads the extra fields of a packet whose family is in the byte order of the capturing machine.
fn null_extra(bytes: &[u8]) -> ExtraFields
    ensures { result ≡ null_extra bytes.now }
{
    if bytes.len() < FAMILY_LEN {
        return no_extra();
    }
    family_extra(host_family(bytes), bytes)
}

/// Reads the extra fields of a packet whose family is in network byte order.
fn loop_extra(bytes: &[u8]) -> ExtraFields
    ensures { result ≡ loop_extra bytes.now }
{
    if bytes.len() < FAMILY_LEN {
        return no_extra();
    }
    family_extra(BigEndian::read_u32(bytes), bytes)
}

/// Reads the extra fields of captured bytes with a frame, a loopback or a cooked header.
fn headed_extra(link: u16, bytes: &[u8]) -> ExtraFields
    ensures { result ≡ headed_extra link bytes.now }
{
    match link {
        ETHERNET => ethernet_extra(bytes),
        NULL => null_extra(bytes),
        LOOP => loop_extra(bytes),
        COOKED => cooked_extra(bytes, COOKED_TYPE, COOKED_LEN),
        COOKED_2 => cooked_extra(bytes, COOKED_2_TYPE, COOKED_2_LEN),
        _ => no_extra(),
    }
}

/// Reads the extra fields of captured bytes.
pub fn read_extra(link: u16, bytes: &[u8]) -> ExtraFields
    ensures { result ≡ extra_of link bytes.now }
{
    match link {
        RAW | RAW_12 | RAW_14 => raw_extra(bytes),
        RAW_IPV4 => ipv4_extra(bytes),
        RAW_IPV6 => ipv6_extra(bytes),
        _ => headed_extra(link, bytes),
    }
}
