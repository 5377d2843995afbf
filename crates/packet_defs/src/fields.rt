//! The header fields that conditions test.
/// The header fields of a packet that are present and captured.
#[derive(Clone, Copy, PartialEq, Eq, Debug)]
pub struct Fields {
    /// The VLAN id of the first tag (IEEE 802.1Q).
    pub vlan: Option<u16>,
    /// The IP version, 4 or 6.
    pub version: Option<u8>,
    /// The differentiated services codepoint (RFC 2474).
    pub dscp: Option<u8>,
    /// The protocol of IPv4, or the next header of IPv6.
    pub proto: Option<u8>,
    pub source: Option<u128>,
    /// The destination address.
    pub target: Option<u128>,
    pub sport: Option<u16>,
    pub dport: Option<u16>,
}
