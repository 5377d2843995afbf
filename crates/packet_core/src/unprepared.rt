//! The class of a packet from the tests of a policy as they are written.
ghost use Rattle.std.specs.Prelude.{◌≡◌, ◌<◌, ℕ, List, Some, length, map, position};
ghost use Rattle.std.specs.List.{list_any};
ghost use Rattle.policy_text_defs.specs.declared.condition.Condition.{Condition};
ghost use Rattle.policy_rules.specs.Alternatives.{alternatives_of};
ghost use Rattle.packet_defs.specs.Condition.{class_of};
ghost use Rattle.packet_defs.specs.Extra.{no_extra};
ghost use Rattle.packet_defs.specs.Test.{belongs, class_among, is_among, is_found, is_in, passes};
ghost use Rattle.packet_core.specs.Tests.{classes_of, conditions_of, passes_all, probe_of, range_of, test_of, tests_of};

use crate::extra::no_extra;
use crate::tests::{flags_byte, has_prefix, has_version, have_flags, number_of};
use list_core::List;
use packet_defs::{Fields, Header};
use policy_core::{Class, Policy};
use policy_text_defs::{Probe, Range, Test};

fn is_in(range: &Range, value: u32) -> bool
    ensures { result ≡ is_in value (range_of range.now) }
{
    range.low <= value && value <= range.high
}

fn one_has(ranges: &[Range], value: u32) -> bool
    ensures { result ≡ list_any (λ r. is_in value (range_of r)) ranges.now }
{
    ranges.iter().any(|range| is_in(range, value))
}

/// Returns whether a value is in one of the ranges.
fn is_among(ranges: &[Range], value: u32) -> bool
    ensures { result ≡ is_among (map range_of ranges.now) value }
{
    one_has(ranges, value)
}

/// Returns whether a probe holds for a packet of this original length.
fn is_found(probe: &Probe, header: &Header, len: u32) -> bool
    ensures { result ≡ is_found header.now len (probe_of probe.now) }
{
    match probe {
        Probe::Among(field, ranges) => match number_of(*field, header, len) {
            Some(number) => is_among(ranges.as_slice(), number),
            None => false,
        },
        Probe::Source(prefix) => has_prefix(*prefix, header, header.fields.source),
        Probe::Dest(prefix) => has_prefix(*prefix, header, header.fields.target),
        Probe::Flags(value, mask) => match header.extra.flags {
            Some(flags) => have_flags(flags_byte(*value), flags_byte(*mask), flags),
            None => false,
        },
        Probe::Ipv4 => has_version(4, &header.fields),
        Probe::Ipv6 => has_version(6, &header.fields),
    }
}

fn passes(test: &Test, header: &Header, len: u32) -> bool
    ensures { result ≡ passes header.now len (test_of test.now) }
{
    let found = is_found(&test.probe, header, len);
    if test.negated { !found } else { found }
}

fn passes_all(tests: &List<Test>, header: &Header, len: u32) -> bool
    ensures { result ≡ passes_all header.now len tests.now }
{
    tests
        .as_slice()
        .iter()
        .all(|test| passes(test, header, len))
}

fn one_passes(alternatives: &[List<Test>], header: &Header, len: u32) -> bool
    ensures { result ≡ list_any (passes_all header.now len) alternatives.now }
{
    alternatives
        .iter()
        .any(|tests| passes_all(tests, header, len))
}

/// Returns whether a packet of this original length belongs to a class.
fn belongs(class: &Class, header: &Header, len: u32) -> bool
    ensures { result ≡ belongs header.now len (tests_of class.now.conditions) }
{
    let alternatives = class.conditions.as_slice();
    if alternatives.is_empty() {
        return true;
    }
    one_passes(alternatives, header, len)
}

/// Returns the index of the first class to which a packet of this original length belongs.
fn first_class(classes: &[Class], header: &Header, len: u32) -> Option<usize>
    ensures { result ≡ position (λ c. belongs header.now len (tests_of c.conditions)) classes.now }
{
    classes.iter().position(|class| belongs(class, header, len))
}

/// Returns the first class to which a packet of this original length with these fields belongs. A
/// field that isn't one of these is absent. The last class has no conditions, so there always is
/// one. For many packets, a `Classifier` is faster.
pub fn classify(policy: &Policy, fields: &Fields, len: u32) -> u32
    ensures class { class_among (classes_of policy.now.conditions)
        (record { fields = fields.now; extra = no_extra }) len ≡ Some result }
    ensures classic { (conditions : List (List Condition)) → policy.now.conditions ≡
        map alternatives_of conditions → class_of (conditions_of conditions) fields.now len ≡
        Some result }
    ensures there { result < length policy.now.policy.classes }
{
    let header = Header {
        fields: *fields,
        extra: no_extra(),
    };
    match first_class(policy.classes(), &header, len) {
        Some(number) => number as u32,
        None => unreachable!(),
    }
}
