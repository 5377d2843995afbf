//! The headers of link types: Ethernet II frames with VLAN tags (IEEE 802.1Q), Linux cooked captures
//! and loopback captures. Reads the header fields of captured bytes.
ghost use Rattle.std.specs.Prelude.{◌≡◌, ◌≤◌, ◌<◌, ◌+◌, ◌^◌, length};
ghost use Rattle.packet_defs.specs.Ethernet.{tag_with, tag_at, type_place_from, type_place, type_at, carried_fields, payload_fields, ethernet_fields};
ghost use Rattle.packet_defs.specs.Cooked.{cooked_at};
ghost use Rattle.packet_defs.specs.Loopback.{family_fields, host_family, null_fields, loop_fields};
ghost use Rattle.packet_defs.specs.Headers.{raw_fields, fields_of, headed_fields, fields_known, fields_in};

use crate::internet::{is_ipv4, no_fields, read_ipv4, read_ipv6};
use byteorder::{BigEndian, ByteOrder, LittleEndian};
use packet_defs::Fields;

/// The link types of Ethernet and of raw IP (pcap-linktype).
pub const ETHERNET: u16 = 1;

pub const RAW: u16 = 101;

/// The first version of a policy that knows the link types below.
const LINKS_VERSION: u32 = 3;

/// Raw IP as some systems write it.
pub const RAW_12: u16 = 12;

pub const RAW_14: u16 = 14;

pub const RAW_IPV4: u16 = 228;

pub const RAW_IPV6: u16 = 229;

/// An address family, in the byte order of the capturing machine.
pub const NULL: u16 = 0;

/// An address family, in network byte order.
pub const LOOP: u16 = 108;

/// Linux cooked captures of versions 1 and 2.
pub const COOKED: u16 = 113;

pub const COOKED_2: u16 = 276;

/// The position after the two addresses.
pub const TYPE_PLACE: usize = 12;

/// The length of a VLAN tag in bytes.
const TAG_LEN: usize = 4;

/// The types of customer tags and of service tags.
const CUSTOMER_TAG: u16 = 0x8100;

const SERVICE_TAG: u16 = 0x88A8;

/// The types of IPv4 and IPv6.
pub const IPV4: u16 = 0x0800;

pub const IPV6: u16 = 0x86DD;

/// The position of the protocol type in a cooked header of version 1, and the header's length.
pub const COOKED_TYPE: usize = 14;

pub const COOKED_LEN: usize = 16;

/// The same for version 2.
pub const COOKED_2_TYPE: usize = 0;

pub const COOKED_2_LEN: usize = 20;

/// The length in bytes of an address family.
pub const FAMILY_LEN: usize = 4;

/// The address family of IPv4 on all systems.
pub const FAMILY_IPV4: u32 = 2;

/// The address families of IPv6: of NetBSD and OpenBSD, of FreeBSD, and of Darwin.
pub const IPV6_OPENBSD: u32 = 24;

pub const IPV6_FREEBSD: u32 = 28;

pub const IPV6_DARWIN: u32 = 30;

/// Returns the VLAN id of a tag whose type is at `at` and whose id is at `id`, if the type after the
/// tag is captured too.
#[inline(always)]
pub fn tag(bytes: &[u8], at: usize, id: usize) -> Option<u16>
    requires order { at ≤ id }
    requires bound { id < 2 ^ 33 }
    ensures { result ≡ tag_with at id bytes.now }
{
    if id + 4 > bytes.len() {
        return None;
    }
    match BigEndian::read_u16(&bytes[at..]) {
        CUSTOMER_TAG | SERVICE_TAG => Some(BigEndian::read_u16(&bytes[id..]) & 0xFFF),
        _ => None,
    }
}

/// Returns the position of the type, if a tag can be at `at`.
pub fn type_place_from(bytes: &[u8], at: usize) -> usize
    requires { at < 2 ^ 32 }
    ensures value { result ≡ type_place_from at bytes.now }
    ensures bound { result ≤ at + 4 }
{
    if tag(bytes, at, at + 2).is_none() {
        at
    } else {
        at + TAG_LEN
    }
}

/// The VLAN id of a frame's first tag, and the position of its payload's type.
#[derive(Clone, Copy)]
pub struct Frame {
    pub vlan: Option<u16>,
    pub place: usize,
}

/// Reads the header of a frame, with at most two tags.
#[inline(always)]
pub fn read_frame(bytes: &[u8]) -> Frame
    ensures vlan { result.vlan ≡ tag_at 12 bytes.now }
    ensures place { result.place ≡ type_place bytes.now }
    ensures bound { result.place ≤ 20 }
{
    let vlan = tag(bytes, TYPE_PLACE, TYPE_PLACE + 2);
    if vlan.is_none() {
        let place = TYPE_PLACE;
        return Frame { vlan, place };
    }
    let place = type_place_from(bytes, TYPE_PLACE + TAG_LEN);
    Frame { vlan, place }
}

/// Returns the type at a position, if it is captured.
pub fn type_at(bytes: &[u8], at: usize) -> Option<u16>
    requires { at < 2 ^ 32 }
    ensures { result ≡ type_at at bytes.now }
{
    if at + 2 <= bytes.len() {
        Some(BigEndian::read_u16(&bytes[at..]))
    } else {
        None
    }
}

/// Reads the fields of a payload of this type at a position.
fn read_carried(carried: Option<u16>, bytes: &[u8], at: usize) -> Fields
    requires { at < 2 ^ 32 }
    ensures { result ≡ carried_fields carried at bytes.now }
{
    match carried {
        Some(IPV4) => read_ipv4(bytes, at),
        Some(IPV6) => read_ipv6(bytes, at),
        _ => no_fields(),
    }
}

/// Reads the fields of the payload after the type at a position.
pub fn read_payload(bytes: &[u8], at: usize) -> Fields
    requires { at < 2 ^ 31 }
    ensures { result ≡ payload_fields at bytes.now }
{
    read_carried(type_at(bytes, at), bytes, at + 2)
}

/// Reads the fields of a frame.
fn read_ethernet(bytes: &[u8]) -> Fields
    ensures { result ≡ ethernet_fields bytes.now }
{
    let frame = read_frame(bytes);
    Fields {
        vlan: frame.vlan,
        ..read_payload(bytes, frame.place)
    }
}

/// Reads the fields of a packet whose header has the protocol type at `at` and ends at `end`.
fn read_cooked(bytes: &[u8], at: usize, end: usize) -> Fields
    requires order { at ≤ end }
    requires bound { end < 2 ^ 16 }
    ensures { result ≡ cooked_at at end bytes.now }
{
    let vlan = tag(bytes, at, end);
    if vlan.is_none() {
        return read_carried(type_at(bytes, at), bytes, end);
    }
    Fields {
        vlan,
        ..read_payload(bytes, type_place_from(bytes, end + 2))
    }
}

/// Reads the fields of the payload of this address family.
fn read_family(family: u32, bytes: &[u8]) -> Fields
    ensures { result ≡ family_fields family bytes.now }
{
    match family {
        FAMILY_IPV4 => read_ipv4(bytes, FAMILY_LEN),
        IPV6_OPENBSD | IPV6_FREEBSD | IPV6_DARWIN => read_ipv6(bytes, FAMILY_LEN),
        _ => no_fields(),
    }
}

/// Returns the family, in the byte order that gives a number below 2 to the power of 16.
pub fn host_family(bytes: &[u8]) -> u32
    requires { 4 ≤ length bytes.now }
    ensures { result ≡ host_family bytes.now }
{
    let family = BigEndian::read_u32(bytes);
    if family < 0x10000 {
        family
    } else {
        LittleEndian::read_u32(bytes)
    }
}

/// Reads the fields of a packet whose family is in the byte order of the capturing machine.
fn read_null(bytes: &[u8]) -> Fields
    ensures { result ≡ null_fields bytes.now }
{
    if bytes.len() < FAMILY_LEN {
        return no_fields();
    }
    read_family(host_family(bytes), bytes)
}

/// Reads the fields of a packet whose family is in network byte order.
fn read_loop(bytes: &[u8]) -> Fields
    ensures { result ≡ loop_fields bytes.now }
{
    if bytes.len() < FAMILY_LEN {
        return no_fields();
    }
    read_family(BigEndian::read_u32(bytes), bytes)
}

/// Reads the fields of a packet that begins with an IP header.
fn read_raw(bytes: &[u8]) -> Fields
    ensures { result ≡ raw_fields bytes.now }
{
    if is_ipv4(bytes, 0) {
        read_ipv4(bytes, 0)
    } else {
        read_ipv6(bytes, 0)
    }
}

/// Reads the header fields of captured bytes. Packets with a link type other than Ethernet and raw
/// IP have none.
pub fn read_fields(link: u16, bytes: &[u8]) -> Fields
    ensures { result ≡ fields_of link bytes.now }
{
    match link {
        ETHERNET => read_ethernet(bytes),
        RAW => read_raw(bytes),
        _ => no_fields(),
    }
}

/// Reads the header fields of captured bytes with a loopback or a cooked header.
fn read_headed(link: u16, bytes: &[u8]) -> Fields
    ensures { result ≡ headed_fields link bytes.now }
{
    match link {
        NULL => read_null(bytes),
        LOOP => read_loop(bytes),
        COOKED => read_cooked(bytes, COOKED_TYPE, COOKED_LEN),
        COOKED_2 => read_cooked(bytes, COOKED_2_TYPE, COOKED_2_LEN),
        _ => read_fields(link, bytes),
    }
}

/// Reads the header fields of captured bytes as policies of version 3 know them.
fn read_known(link: u16, bytes: &[u8]) -> Fields
    ensures { result ≡ fields_known link bytes.now }
{
    match link {
        RAW_12 | RAW_14 => read_raw(bytes),
        RAW_IPV4 => read_ipv4(bytes, 0),
        RAW_IPV6 => read_ipv6(bytes, 0),
        _ => read_headed(link, bytes),
    }
}

/// Reads the header fields of captured bytes for a policy of this version. Version 3 also knows the
/// link types of raw IPv4 and IPv6, of loopback and of Linux cooked captures.
pub fn read_fields_in(version: u32, link: u16, bytes: &[u8]) -> Fields
    ensures { result ≡ fields_in version link bytes.now }
{
    if version < LINKS_VERSION {
        read_fields(link, bytes)
    } else {
        read_known(link, bytes)
    }
}
