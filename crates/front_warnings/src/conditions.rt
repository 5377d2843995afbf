//! The packets that meet all conditions of a class or all tests of an alternative, as one range for
//! each header field.
use policy_text_defs::{Condition, FieldName, Prefix, Probe, Range, Test, TestField};

/// The number of header fields that conditions limit.
const COUNT: usize = 9;

/// The index of the source address, of the destination address, and of the IP version.
const SOURCE: usize = 6;

const DEST: usize = 7;

const VERSION: usize = 8;

/// A range of numbers, both ends included.
#[derive(Clone, Copy, PartialEq, Eq, Debug)]
pub struct Limits {
    low: u32,
    high: u32,
}

/// The ranges that a packet has its fields in. A field without a range can have any value, or be
/// absent.
#[derive(Drop)]
pub struct Ranges {
    fields: [Option<Limits>; COUNT],
    /// Whether each packet in all ranges meets the conditions, or passes the tests.
    exact: bool,
}

/// Returns the index of a field.
fn place_of(field: FieldName) -> usize {
    match field {
        FieldName::Vlan => 0,
        FieldName::Dscp => 1,
        FieldName::Proto => 2,
        FieldName::Sport => 3,
        FieldName::Dport => 4,
        FieldName::Len => 5,
    }
}

/// Returns the bits of an IPv4 address after a prefix of this length.
pub fn host_mask(bits: u32) -> u32 {
    if bits == 0 {
        u32::MAX
    } else if bits < 32 {
        u32::MAX >> bits
    } else {
        0
    }
}

/// Returns the addresses with a prefix.
fn prefix(address: u32, bits: u32) -> Limits {
    let mask = host_mask(bits);
    Limits {
        low: address & !mask,
        high: address | mask,
    }
}

/// Returns the values that are in both ranges.
fn both(held: Option<Limits>, limits: Limits) -> Limits {
    match held {
        Some(other) => Limits {
            low: limits.low.max(other.low),
            high: limits.high.min(other.high),
        },
        None => limits,
    }
}

/// Returns whether each value that `later` allows is one that `earlier` allows.
fn is_within(later: Option<Limits>, earlier: Option<Limits>) -> bool {
    match (later, earlier) {
        (_, None) => true,
        (Some(later), Some(earlier)) => earlier.low <= later.low && later.high <= earlier.high,
        (None, Some(_)) => false,
    }
}

impl Ranges {
    /// Returns the ranges that the conditions of a class give together.
    pub fn of(conditions: &[Condition]) -> Ranges {
        let mut ranges = Ranges::all();
        for condition in conditions {
            ranges.narrow(*condition);
        }
        ranges
    }

    /// Returns the ranges that the tests of an alternative give together.
    pub fn of_tests(tests: &[Test]) -> Ranges {
        let mut ranges = Ranges::all();
        for test in tests {
            ranges.narrow_by_test(test);
        }
        ranges
    }

    /// Returns ranges that each packet is in.
    pub fn all() -> Ranges {
        Ranges {
            fields: [None; COUNT],
            exact: true,
        }
    }

    /// Returns ranges that each packet is in, and that don't say which packets meet the conditions.
    pub fn unknown() -> Ranges {
        Ranges {
            fields: [None; COUNT],
            exact: false,
        }
    }

    /// Narrows the ranges by a test. Negated tests, flags, and fields that have no range here leave
    /// them as they are, and inexact.
    fn narrow_by_test(&mut self, test: &Test) {
        if test.negated {
            self.exact = false;
            return;
        }
        match &test.probe {
            Probe::Among(TestField::Named(field), ranges) => {
                self.limit_to(place_of(*field), ranges.as_slice());
            }
            Probe::Source(Prefix::V4(address, bits)) => {
                self.limit_address(SOURCE, *address, *bits);
            }
            Probe::Dest(Prefix::V4(address, bits)) => self.limit_address(DEST, *address, *bits),
            Probe::Source(Prefix::V6(_, _)) | Probe::Dest(Prefix::V6(_, _)) => {
                self.limit(VERSION, 6, 6);
                self.exact = false;
            }
            Probe::Ipv4 => self.limit(VERSION, 4, 4),
            Probe::Ipv6 => self.limit(VERSION, 6, 6),
            _ => self.exact = false,
        }
    }

    /// Narrows the range of a field to the values from the least to the greatest of some ranges.
    fn limit_to(&mut self, place: usize, ranges: &[Range]) {
        let mut low = u32::MAX;
        let mut high = 0;
        for range in ranges {
            low = low.min(range.low);
            high = high.max(range.high);
        }
        self.limit(place, low, high);
        if ranges.len() != 1 {
            self.exact = false;
        }
    }

    /// Narrows the range of a field.
    fn limit(&mut self, place: usize, low: u32, high: u32) {
        if let Some(held) = self.fields.get_mut(place) {
            *held = Some(both(*held, Limits { low, high }));
        }
    }

    /// Narrows the ranges by a condition.
    fn narrow(&mut self, condition: Condition) {
        match condition {
            Condition::Field(field, low, high) => self.limit(place_of(field), low, high),
            Condition::Source(address, bits) => self.limit_address(SOURCE, address, bits),
            Condition::Dest(address, bits) => self.limit_address(DEST, address, bits),
            Condition::Ipv4 => self.limit(VERSION, 4, 4),
            Condition::Ipv6 => self.limit(VERSION, 6, 6),
        }
    }

    /// Narrows the ranges by the prefix of an IPv4 address.
    fn limit_address(&mut self, place: usize, address: u32, bits: u32) {
        let Limits { low, high } = prefix(address, bits);
        self.limit(place, low, high);
        self.limit(VERSION, 4, 4);
    }

    /// Returns whether no packet is in all ranges.
    pub fn is_empty(&self) -> bool {
        self.fields.iter().any(|field| match field {
            Some(limits) => limits.high < limits.low,
            None => false,
        })
    }

    /// Returns whether each packet that is in these ranges meets the conditions of `earlier`, as far
    /// as its ranges tell.
    pub fn are_within(&self, earlier: &Ranges) -> bool {
        if !earlier.exact {
            return false;
        }
        for place in 0..COUNT {
            if !is_within(self.fields[place], earlier.fields[place]) {
                return false;
            }
        }
        true
    }
}
