//! Tests of header fields: the conditions of the third edition.
ghost use Rattle.std.specs.Prelude.{◌≡◌};
ghost use Rattle.policy_text_defs.specs.Tests.{test_field_most, flag_of, has_flag, with_flag, are_within, test_subject_of};

use crate::condition::FieldName;
use crate::word::is;
use list_core::List;

/// Values from `low` to `high`, both included.
#[derive(Clone, Copy, PartialEq, Eq, Debug)]
pub struct Range {
    pub low: u32,
    pub high: u32,
}

/// The field of a test.
#[derive(Clone, Copy, PartialEq, Eq, Debug)]
pub enum TestField {
    Named(FieldName),
    /// The priority of the first 802.1Q tag.
    Pcp,
    Ethertype,
}

impl TestField {
    /// Returns the greatest value that the field can hold.
    pub fn most(self) -> u32
        ensures { result ≡ test_field_most self }
    {
        match self {
            TestField::Named(field) => field.most(),
            TestField::Pcp => 7,
            TestField::Ethertype => 65_535,
        }
    }
}

/// An address, and how many of its first bits count. Bits after them are ignored.
#[derive(Clone, Copy, PartialEq, Eq, Debug)]
pub enum Prefix {
    V4(u32, u32),
    V6(u128, u32),
}

/// TCP flags (RFC 9293 and RFC 3168).
#[derive(Clone, Copy, PartialEq, Eq, Debug)]
pub struct TcpFlags {
    pub fin: bool,
    pub syn: bool,
    pub rst: bool,
    pub psh: bool,
    pub ack: bool,
    pub urg: bool,
    pub ece: bool,
    pub cwr: bool,
}

/// What a test looks for in a packet's header.
#[derive(Drop)]
pub enum Probe {
    /// The field's value is in one of the ranges.
    Among(TestField, List<Range>),
    Source(Prefix),
    Dest(Prefix),
    /// The value that the flags of the mask have, and the mask.
    Flags(TcpFlags, TcpFlags),
    Ipv4,
    Ipv6,
}

/// A probe, or its negation.
#[derive(Drop)]
pub struct Test {
    pub negated: bool,
    pub probe: Probe,
}

/// A TCP flag.
#[derive(Clone, Copy, PartialEq, Eq, Debug)]
pub enum Flag {
    Fin,
    Syn,
    Rst,
    Psh,
    Ack,
    Urg,
    Ece,
    Cwr,
}

impl Flag {
    /// Returns the flag that a word names.
    pub fn of(word: &[u8]) -> Option<Flag>
        ensures { result ≡ flag_of word.now }
    {
        Some(match word {
            b"fin" => Flag::Fin,
            b"syn" => Flag::Syn,
            b"rst" => Flag::Rst,
            b"psh" => Flag::Psh,
            b"ack" => Flag::Ack,
            b"urg" => Flag::Urg,
            b"ece" => Flag::Ece,
            b"cwr" => Flag::Cwr,
            _ => return None,
        })
    }
}

impl TcpFlags {
    /// Returns whether the flag is set.
    pub fn has(self, flag: Flag) -> bool
        ensures { result ≡ has_flag flag self }
    {
        match flag {
            Flag::Fin => self.fin,
            Flag::Syn => self.syn,
            Flag::Rst => self.rst,
            Flag::Psh => self.psh,
            Flag::Ack => self.ack,
            Flag::Urg => self.urg,
            Flag::Ece => self.ece,
            Flag::Cwr => self.cwr,
        }
    }

    /// Returns the flags with this one set.
    pub fn with(self, flag: Flag) -> TcpFlags
        ensures { result ≡ with_flag flag self }
    {
        match flag {
            Flag::Fin => TcpFlags { fin: true, ..self },
            Flag::Syn => TcpFlags { syn: true, ..self },
            Flag::Rst => TcpFlags { rst: true, ..self },
            Flag::Psh => TcpFlags { psh: true, ..self },
            Flag::Ack => TcpFlags { ack: true, ..self },
            Flag::Urg => TcpFlags { urg: true, ..self },
            Flag::Ece => TcpFlags { ece: true, ..self },
            Flag::Cwr => TcpFlags { cwr: true, ..self },
        }
    }

    /// Returns whether each flag that is set is set in the mask too.
    pub fn is_within(self, mask: TcpFlags) -> bool
        ensures { result ≡ are_within self mask }
    {
        (!self.fin || mask.fin)
            && (!self.syn || mask.syn)
            && (!self.rst || mask.rst)
            && (!self.psh || mask.psh)
            && (!self.ack || mask.ack)
            && (!self.urg || mask.urg)
            && (!self.ece || mask.ece)
            && (!self.cwr || mask.cwr)
    }
}

/// The subject of a test: what its first word names.
#[derive(Clone, Copy, PartialEq, Eq, Debug)]
pub enum TestSubject {
    Field(TestField),
    Source,
    Dest,
    Flags,
    Ipv4,
    Ipv6,
}

impl TestSubject {
    /// Returns the subject that the first word of a test names.
    pub fn of(word: &[u8]) -> Option<TestSubject>
        ensures { result ≡ test_subject_of word.now }
    {
        Some(if is(word, "vlan") {
            TestSubject::Field(TestField::Named(FieldName::Vlan))
        } else if is(word, "dscp") {
            TestSubject::Field(TestField::Named(FieldName::Dscp))
        } else if is(word, "proto") {
            TestSubject::Field(TestField::Named(FieldName::Proto))
        } else if is(word, "sport") {
            TestSubject::Field(TestField::Named(FieldName::Sport))
        } else if is(word, "dport") {
            TestSubject::Field(TestField::Named(FieldName::Dport))
        } else if is(word, "len") {
            TestSubject::Field(TestField::Named(FieldName::Len))
        } else if is(word, "pcp") {
            TestSubject::Field(TestField::Pcp)
        } else if is(word, "ethertype") {
            TestSubject::Field(TestField::Ethertype)
        } else if is(word, "src") {
            TestSubject::Source
        } else if is(word, "dst") {
            TestSubject::Dest
        } else if is(word, "tcpflags") {
            TestSubject::Flags
        } else if is(word, "ipv4") {
            TestSubject::Ipv4
        } else if is(word, "ipv6") {
            TestSubject::Ipv6
        } else {
            return None;
        })
    }
}
