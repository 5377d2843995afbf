//! The tests of a policy on a packet's header.
ghost use Rattle.std.specs.Prelude.{◌≡◌, ◌≤◌, ◌<◌, ◌^◌};
ghost use Rattle.packet_defs.specs.Condition.{agree, has_version, value_of};
ghost use Rattle.packet_defs.specs.Test.{agree_6, have_flags, has_prefix, number_of};
ghost use Rattle.packet_core.specs.Tests.{bit, field_of, flags_byte, prefix_of, test_field_of};

use packet_defs::{Fields, Header};
use policy_text_defs::{FieldName, Prefix, TcpFlags, TestField};

/// Returns the value of a field if it is present. `len` is the packet's original length in bytes.
fn value_of(field: FieldName, fields: &Fields, len: u32) -> Option<u32>
    ensures { result ≡ value_of (field_of field) fields.now len }
{
    match field {
        FieldName::Vlan => fields.vlan.map(u32::from),
        FieldName::Dscp => fields.dscp.map(u32::from),
        FieldName::Proto => fields.proto.map(u32::from),
        FieldName::Sport => fields.sport.map(u32::from),
        FieldName::Dport => fields.dport.map(u32::from),
        FieldName::Len => Some(len),
    }
}

/// Returns the value of the field of a test if it is present.
pub(crate) fn number_of(field: TestField, header: &Header, len: u32) -> Option<u32>
    ensures { result ≡ number_of (test_field_of field) header.now len }
{
    match field {
        TestField::Named(field) => value_of(field, &header.fields, len),
        TestField::Pcp => header.extra.pcp.map(u32::from),
        TestField::Ethertype => header.extra.ethertype.map(u32::from),
    }
}

#[inline(always)]
pub(crate) fn has_version(version: u8, fields: &Fields) -> bool
    ensures { result ≡ has_version version fields.now }
{
    fields.version == Some(version)
}

/// Returns whether an address agrees with an IPv4 address in the first `bits` of its 32 bits.
fn agree(bits: u32, address: u32, other: u128) -> bool
    ensures { result ≡ agree bits address other }
{
    let others = 32u32.saturating_sub(bits);
    u128::from(address) >> others == other >> others
}

/// Returns whether an address agrees with an IPv6 address in the first `bits` of its 128 bits.
fn agree_6(bits: u32, address: u128, other: u128) -> bool
    ensures { result ≡ agree_6 bits address other }
{
    let others = 128u32.saturating_sub(bits);
    if others == 128 {
        return true;
    }
    address >> others == other >> others
}

/// Returns whether a packet has the version of a prefix, and its address agrees with the prefix.
pub(crate) fn has_prefix(prefix: Prefix, header: &Header, address: Option<u128>) -> bool
    ensures { result ≡ has_prefix (prefix_of prefix) header.now address }
{
    let Some(address) = address else {
        return false;
    };
    match prefix {
        Prefix::V4(given, bits) => has_version(4, &header.fields) && agree(bits, given, address),
        Prefix::V6(given, bits) => has_version(6, &header.fields) && agree_6(bits, given, address),
    }
}

/// Returns whether the flags of a mask are those of a value.
pub(crate) fn have_flags(value: u8, mask: u8, given: u8) -> bool
    ensures { result ≡ have_flags value mask given }
{
    given & mask == value
}

/// Returns the value of a bit if it is set.
fn bit(set: bool, value: u8) -> u8
    ensures value { result ≡ bit set value }
    ensures most { result ≤ value }
{
    if set { value } else { 0 }
}

/// Returns flags as they are in the 14th byte of a TCP header.
pub(crate) fn flags_byte(flags: TcpFlags) -> u8
    ensures { result ≡ flags_byte flags }
{
    let low = bit(flags.fin, 1) + bit(flags.syn, 2) + bit(flags.rst, 4) + bit(flags.psh, 8);
    low + bit(flags.ack, 16) + bit(flags.urg, 32) + bit(flags.ece, 64) + bit(flags.cwr, 128)
}
