//! The classes of a policy, prepared for classifying many packets.
ghost use Rattle.std.specs.Prelude.{◌≡◌, ◌≤◌, length, true, false};
ghost use Rattle.packet_core.specs.Tests.{classes_of};
ghost use Rattle.packet_core.specs.Numbers.{holds, is_met, numbers_of};
ghost use Rattle.packet_core.specs.Rules.{one_asks};
ghost use Rattle.packet_core.specs.Classes.{AreSame, AreTested, GivesEach};

use crate::asks::one_asks;
use crate::bounds::{Bounds, Prepared};
use crate::extra::{no_extra, read_extra};
use crate::internet::{flow, ipv4_fields, is_ipv4};
use crate::links::{ETHERNET, Frame, IPV4, RAW, read_fields_in, read_frame, read_payload};
use crate::prepared::bound_classes;
use crate::rules::{Alternatives, place_passed, tested_classes};
use byteorder::{BigEndian, ByteOrder};
use packet_defs::{Fields, Header, Packet};
use policy_core::Policy;
use std::alloc::{AllocError, Global};

/// How many numbers of a packet are bounded, each at its own index.
const COUNT: usize = 9;

/// The value of an absent number, above every value that a condition allows.
const ABSENT: u64 = u64::MAX;

/// Returns the numbers of a packet of this original length.
#[inline(always)]
fn numbers_of(fields: &Fields, len: u32) -> [u64; COUNT]
    ensures { result ≡ numbers_of fields.now len }
{
    let (source, target) = if fields.version == Some(4) {
        (fields.source, fields.target)
    } else {
        (None, None)
    };
    let most = u128::from(ABSENT);
    [
        fields.vlan.map_or(ABSENT, u64::from),
        fields.dscp.map_or(ABSENT, u64::from),
        fields.proto.map_or(ABSENT, u64::from),
        fields.sport.map_or(ABSENT, u64::from),
        fields.dport.map_or(ABSENT, u64::from),
        u64::from(len),
        fields.version.map_or(ABSENT, u64::from),
        source.unwrap_or(most).min(most) as u64,
        target.unwrap_or(most).min(most) as u64,
    ]
}

/// Returns whether the number at the index of the bounds is within them.
#[inline(always)]
fn holds(bounds: &Bounds, numbers: &[u64; COUNT]) -> bool
    ensures { result ≡ holds numbers.now bounds.now }
{
    let number = numbers[bounds.place];
    bounds.low <= number && number <= bounds.high
}

/// The classes of a policy, prepared for classifying many packets.
#[derive(Drop)]
pub struct Classifier<'a> {
    policy: &'a Policy,
    /// Whether each class is prepared as bounds, in `classes`. Otherwise all are in `tested`.
    bounded: bool,
    classes: Vec<Prepared>,
    tested: Vec<Alternatives>,
    /// Whether a test names an extra header field.
    asks: bool,
    ghost same: { bounded ≡ true → AreSame policy.now.conditions classes.items },
    ghost tests: { bounded ≡ false → AreTested policy.now.conditions tested.items },
    ghost asked: { asks ≡ false → one_asks (classes_of policy.now.conditions) ≡ false },
    ghost given: { GivesEach policy.now.conditions },
    ghost count: { length policy.now.conditions ≡ length policy.now.policy.classes },
    ghost few: { length policy.now.policy.classes ≤ 256 },
}

impl<'a> Classifier<'a> {
    ghost use Rattle.std.specs.Prelude.{◌≡◌, ◌<◌, Some, IfOk, length, true, false};
    ghost use Rattle.packet_defs.specs.declared.extra.ExtraFields.{ExtraFields};
    ghost use Rattle.packet_defs.specs.Test.{class_among};
    ghost use Rattle.packet_defs.specs.Extra.{header_in};
    ghost use Rattle.packet_core.specs.Tests.{classes_of};
    ghost use Rattle.packet_core.specs.Numbers.{is_met};
    ghost use Rattle.packet_core.specs.Classes.{IsSorted, IsSortedByFields};
    ghost use Rattle.packet_core.specs.Classifier.{policy_of, HasClassOf};

    /// Prepares the classes of a policy. The only error is out of memory.
    pub fn new(alloc: Global, policy: &'a Policy) -> Result<Classifier<'a>, AllocError>
        ensures { IfOk result (λ classifier. policy_of classifier ≡ policy.now) }
    {
        let given = policy.classes();
        match bound_classes(alloc, given)? {
            Some(classes) => Ok(Classifier {
                policy,
                bounded: true,
                classes,
                tested: Vec::new(alloc),
                asks: one_asks(given),
            }),
            None => Ok(Classifier {
                policy,
                bounded: false,
                classes: Vec::new(alloc),
                tested: tested_classes(alloc, given)?,
                asks: one_asks(given),
            }),
        }
    }

    /// Returns the first class to which a packet of this original length belongs, whatever its extra
    /// fields, if the classes are prepared as bounds.
    #[inline(always)]
    fn class_met(&self, fields: &Fields, len: u32) -> u32
        requires { self.now.bounded ≡ true }
        ensures class { (extra : ExtraFields) → class_among
            (classes_of (policy_of self.now).conditions)
            (record { fields = fields.now; extra = extra }) len ≡ Some result }
        ensures there { result < length (policy_of self.now).policy.classes }
    {
        let numbers = &numbers_of(fields, len);
        let met = self.classes.iter().position(
            |class: &Prepared| -> bool
                ensures { result ≡ is_met numbers.entry.now class.now }
            {
                holds(&class.first, numbers)
                    && class.others.iter().all(|bounds| holds(bounds, numbers))
            },
        );
        match met {
            Some(place) => place as u32,
            None => unreachable!(),
        }
    }

    /// Returns the first class to which a packet of this original length belongs, if the classes
    /// aren't prepared as bounds.
    fn class_passed(&self, header: &Header, len: u32) -> u32
        requires { self.now.bounded ≡ false }
        ensures class { class_among (classes_of (policy_of self.now).conditions) header.now len ≡
            Some result }
        ensures there { result < length (policy_of self.now).policy.classes }
    {
        match place_passed(&self.tested, header, len) {
            Some(place) => place as u32,
            None => unreachable!(),
        }
    }

    /// Returns the first class to which a packet with this header and this original length belongs.
    pub fn class_of(&self, header: &Header, len: u32) -> u32
        ensures class { class_among (classes_of (policy_of self.now).conditions) header.now len ≡
            Some result }
        ensures there { result < length (policy_of self.now).policy.classes }
    {
        if self.bounded {
            self.class_met(&header.fields, len)
        } else {
            self.class_passed(header, len)
        }
    }

    /// Reads the header of captured bytes. Reads the extra fields only if a test names one.
    fn read_header(&self, link: u16, bytes: &[u8]) -> Header
        ensures { HasClassOf (policy_of self.now)
            (header_in (policy_of self.now).policy.version link bytes.now) result }
    {
        let fields = read_fields_in(self.policy.version(), link, bytes);
        if !self.asks {
            return Header {
                fields,
                extra: no_extra(),
            };
        }
        Header {
            fields,
            extra: read_extra(link, bytes),
        }
    }

    /// Sets the class and the flow of a packet whose classes aren't prepared as bounds. It is a call
    /// of its own to keep `classify` short.
    #[inline(never)]
    fn put_passed(&self, link: u16, bytes: &[u8], packet: &mut Packet)
        requires { self.now.bounded ≡ false }
        ensures { IsSorted (policy_of self.now)
            (header_in (policy_of self.now).policy.version link bytes.now) packet.old packet.new }
    {
        let header = self.read_header(link, bytes);
        packet.class = self.class_passed(&header, packet.len);
        packet.flow = flow(&header.fields);
    }

    /// Sets the class and the flow of a packet from these fields. The packet's original length is
    /// already set.
    #[inline(always)]
    fn put(&self, fields: &Fields, packet: &mut Packet)
        requires { self.now.bounded ≡ true }
        ensures { IsSortedByFields (policy_of self.now) fields.now packet.old packet.new }
    {
        packet.class = self.class_met(fields, packet.len);
        packet.flow = flow(fields);
    }

    /// Sets the class and the flow of a packet with a less common header. It is a call of its own to
    /// keep `classify` short.
    #[inline(never)]
    fn put_other(&self, link: u16, bytes: &[u8], packet: &mut Packet)
        requires { self.now.bounded ≡ true }
        ensures { IsSorted (policy_of self.now)
            (header_in (policy_of self.now).policy.version link bytes.now) packet.old packet.new }
    {
        self.put(&read_fields_in(self.policy.version(), link, bytes), packet);
    }

    /// Sets the class and the flow of a packet from its link type and captured bytes, by the version
    /// of the policy. The packet's original length is already set.
    #[inline]
    pub fn classify(&self, link: u16, bytes: &[u8], packet: &mut Packet)
        ensures { IsSorted (policy_of self.now)
            (header_in (policy_of self.now).policy.version link bytes.now) packet.old packet.new }
    {
        if !self.bounded {
            return self.put_passed(link, bytes, packet);
        }
        match link {
            ETHERNET => {
                let Frame { vlan, place } = read_frame(bytes);
                let at = place + 2;
                if is_ipv4(bytes, at) && BigEndian::read_u16(&bytes[place..]) == IPV4 {
                    let fields = ipv4_fields(bytes, at);
                    return self.put(&Fields { vlan, ..fields }, packet);
                }
                let fields = read_payload(bytes, place);
                self.put(&Fields { vlan, ..fields }, packet);
            }
            RAW if is_ipv4(bytes, 0) => self.put(&ipv4_fields(bytes, 0), packet),
            _ => self.put_other(link, bytes, packet),
        }
    }
}
