//! The body of a block, as its front describes it.
ghost use Rattle.std.specs.Prelude.{◌≡◌, ◌≤◌, length, slice_get};
ghost use Rattle.pcap_defs.specs.Number.{long_at};
ghost use Rattle.pcapng_defs.specs.Block;
ghost use Rattle.pcapng_core.specs.Bodies;
ghost use Rattle.pcapng_core.specs.Bodies.{packet_body, enhanced_body, simple_body, body_said, captured_in, IsEarly, IsShortBody};
ghost use Rattle.rank_defs.specs.Programs.{max_rank};
ghost use Rattle.pcapng_core.specs.Carries.{carried_of};

use crate::carry::Carry;
use crate::fault::NgFault;
use crate::moment::moment_in;
use crate::start::{Kind, Start};
use pcap_core::{read_long, read_short};
use pcap_defs::MOST_CAPTURED;
use pcapng_defs::{Interface, MOST_INTERFACES};

const MAJOR_VERSION: u16 = 1;

/// The values of a packet's block.
#[derive(Clone, Copy)]
pub struct Packet {
    pub link: u16,
    pub moment: u64,
    pub captured: u32,
    pub len: u32,
}

/// The body of a block, as its front describes it.
#[derive(Clone, Copy)]
pub enum Body {
    Section,
    /// The link type and the snapshot length. The unit is in the options.
    Interface(u16, u32),
    Packet(Packet),
    Other,
    /// The fault of the block, if the block is whole.
    Faulty(NgFault),
}

impl Body {
    ghost use Rattle.std.specs.Prelude.{◌≡◌};
    ghost use Rattle.pcapng_core.specs.Bodies.{captured_in};

    /// Returns how many captured bytes follow the front.
    pub fn captured(&self) -> usize
        ensures { result ≡ captured_in self.now }
    {
        match self {
            Body::Packet(packet) => packet.captured as usize,
            _ => 0,
        }
    }
}

/// Returns how many bytes at a block's front are read before its options or captured bytes.
pub fn front_len(kind: Kind) -> usize
    ensures { result ≡ Bodies.front_len kind }
{
    match kind {
        Kind::Section | Kind::Interface => 16,
        Kind::Enhanced => 28,
        Kind::Simple | Kind::Other => 12,
    }
}

/// Returns the packet if its captured bytes are within the limit and fit after position `at` of a
/// block of `total` bytes, and else the fault.
fn packet_within(packet: Packet, at: u32, total: u32, number: u64) -> Body
    requires place { at ≤ 28 }
    requires early { packet.moment ≤ max_rank }
    ensures said { result ≡ packet_body packet at total number }
    ensures early { IsEarly result }
    ensures short { IsShortBody result }
{
    if packet.captured <= MOST_CAPTURED && at + packet.captured + 4 <= total {
        Body::Packet(packet)
    } else {
        Body::Faulty(NgFault::PacketLength(number))
    }
}

/// Parses the front of a section header.
fn section_in(carry: &Carry, start: Start, front: &[u8]) -> Body
    requires { length front.now ≡ 16 }
    ensures { result ≡ body_said (carried_of carry.now) start.big start.total front.now
        Kind.Section }
{
    if read_short(start.big, front, 12) == MAJOR_VERSION {
        Body::Section
    } else {
        Body::Faulty(NgFault::NgVersion(carry.number()))
    }
}

/// Parses the front of an interface block.
fn interface_in(carry: &Carry, start: Start, front: &[u8]) -> Body
    requires { length front.now ≡ 16 }
    ensures { result ≡ body_said (carried_of carry.now) start.big start.total front.now
        Kind.Interface }
{
    if carry.described.len() == MOST_INTERFACES {
        Body::Faulty(NgFault::Interfaces(carry.number()))
    } else {
        Body::Interface(
            read_short(start.big, front, 8),
            read_long(start.big, front, 12),
        )
    }
}

/// Parses the front of an enhanced packet block.
fn enhanced_in(carry: &Carry, start: Start, front: &[u8]) -> Body
    requires { 28 ≤ length front.now }
    ensures said { result ≡ enhanced_body (carried_of carry.now) start.big start.total front.now
        (slice_get (carried_of carry.now).described (long_at start.big 8 front.now)) }
    ensures early { IsEarly result }
    ensures short { IsShortBody result }
{
    let number = carry.number();
    let index = read_long(start.big, front, 8) as usize;
    let Some(interface) = carry.described.get(index) else {
        return Body::Faulty(NgFault::NoInterface(number));
    };
    let high = u64::from(read_long(start.big, front, 12));
    let low = u64::from(read_long(start.big, front, 16));
    let packet = Packet {
        link: interface.link,
        moment: moment_in(interface.unit, high * 4_294_967_296 + low),
        captured: read_long(start.big, front, 20),
        len: read_long(start.big, front, 24),
    };
    packet_within(packet, 28, start.total, number)
}

/// Returns the captured length in bytes of a simple packet of this interface.
fn simple_len(interface: &Interface, len: u32) -> u32
    ensures { result ≡ Block.simple_len interface.now len }
{
    if interface.snapshot == 0 {
        len
    } else {
        len.min(interface.snapshot)
    }
}

/// Parses the front of a simple packet block.
fn simple_in(carry: &Carry, start: Start, front: &[u8]) -> Body
    requires { 12 ≤ length front.now }
    ensures said { result ≡ simple_body (carried_of carry.now) start.big start.total front.now
        (slice_get (carried_of carry.now).described 0) }
    ensures early { IsEarly result }
    ensures short { IsShortBody result }
{
    let number = carry.number();
    let Some(interface) = carry.described.first() else {
        return Body::Faulty(NgFault::NoInterface(number));
    };
    let len = read_long(start.big, front, 8);
    let packet = Packet {
        link: interface.link,
        moment: carry.moment,
        captured: simple_len(interface, len),
        len,
    };
    packet_within(packet, 12, start.total, number)
}

/// Parses the front of a block.
pub fn body_in(carry: &Carry, start: Start, front: &[u8]) -> Body
    requires { length front.now ≡ Bodies.front_len start.kind }
    ensures said { result ≡ body_said (carried_of carry.now) start.big start.total front.now
        start.kind }
    ensures early { IsEarly result }
    ensures short { IsShortBody result }
{
    match start.kind {
        Kind::Section => section_in(carry, start, front),
        Kind::Interface => interface_in(carry, start, front),
        Kind::Enhanced => enhanced_in(carry, start, front),
        Kind::Simple => simple_in(carry, start, front),
        Kind::Other => Body::Other,
    }
}
