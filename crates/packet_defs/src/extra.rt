//! The header fields that only policies of version 3 test.
use crate::fields::Fields;

/// The header fields of a packet that only tests of version 3 can name, if they are present and
/// captured.
#[derive(Clone, Copy, PartialEq, Eq, Debug)]
pub struct ExtraFields {
    /// The priority code point of the first tag (IEEE 802.1Q).
    pub pcp: Option<u8>,
    /// The type of the payload (IEEE 802 EtherType).
    pub ethertype: Option<u16>,
    /// The eight flags of a TCP header, in its 14th byte (RFC 9293, RFC 3168).
    pub flags: Option<u8>,
}

/// All header fields of a packet that are present and captured.
#[derive(Clone, Copy, PartialEq, Eq, Debug)]
pub struct Header {
    pub fields: Fields,
    pub extra: ExtraFields,
}
