//! Conditions on header fields.
ghost use Rattle.std.specs.Prelude.{◌≡◌};
ghost use Rattle.policy_text_defs.specs.Words.{subject_of, protocol_of};
ghost use Rattle.policy_text_defs.specs.Ranges.{field_most};

/// A header field that a condition limits to a range.
#[derive(Clone, Copy, PartialEq, Eq, Debug)]
pub enum FieldName {
    Vlan,
    Dscp,
    Proto,
    Sport,
    Dport,
    /// The packet's original length in bytes.
    Len,
}

impl FieldName {
    /// Returns the greatest value that the field can hold.
    pub fn most(self) -> u32
        ensures { result ≡ field_most self }
    {
        match self {
            FieldName::Vlan => 4095,
            FieldName::Dscp => 63,
            FieldName::Proto => 255,
            FieldName::Sport | FieldName::Dport => 65_535,
            FieldName::Len => u32::MAX,
        }
    }
}

/// A condition that each packet of a class must meet.
#[derive(Clone, Copy, PartialEq, Eq, Debug)]
pub enum Condition {
    /// The field's value is in the range from the first number to the second, both included.
    Field(FieldName, u32, u32),
    /// The IPv4 source address has the given prefix: the address, then the prefix length in bits.
    /// Bits after the prefix are ignored.
    Source(u32, u32),
    /// The IPv4 destination address has the given prefix: the address, then the prefix length in
    /// bits. Bits after the prefix are ignored.
    Dest(u32, u32),
    Ipv4,
    Ipv6,
}

/// The subject of a condition: a header field, an address or an IP version.
#[derive(Clone, Copy, PartialEq, Eq, Debug)]
pub enum Subject {
    Field(FieldName),
    Source,
    Dest,
    Ipv4,
    Ipv6,
}

impl Subject {
    /// Returns the subject that the first word of a condition names.
    pub fn of(word: &[u8]) -> Option<Subject>
        ensures { result ≡ subject_of word.now }
    {
        Some(match word {
            b"vlan" => Subject::Field(FieldName::Vlan),
            b"dscp" => Subject::Field(FieldName::Dscp),
            b"proto" => Subject::Field(FieldName::Proto),
            b"sport" => Subject::Field(FieldName::Sport),
            b"dport" => Subject::Field(FieldName::Dport),
            b"len" => Subject::Field(FieldName::Len),
            b"src" => Subject::Source,
            b"dst" => Subject::Dest,
            b"ipv4" => Subject::Ipv4,
            b"ipv6" => Subject::Ipv6,
            _ => return None,
        })
    }
}

/// Returns the protocol number that a word names (IANA protocol numbers).
pub fn protocol_of(word: &[u8]) -> Option<u32>
    ensures { result ≡ protocol_of word.now }
{
    Some(match word {
        b"tcp" => 6,
        b"udp" => 17,
        b"icmp" => 1,
        _ => return None,
    })
}
