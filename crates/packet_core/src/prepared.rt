//! Classes whose tests are bounds on numbers, prepared for testing many packets.
ghost use Rattle.std.specs.Prelude.{◌≡◌, ◌<◌, ◌^◌, ◌&&◌, ℕ, true, nat_le, map, position, IfOk, IfSome};
ghost use Rattle.std.specs.List.{list_all};
ghost use Rattle.packet_defs.specs.declared.fields.Fields.{Fields};
ghost use Rattle.packet_defs.specs.declared.extra.Header.{Header};
ghost use Rattle.packet_defs.specs.Condition.{agree, has_version, in_range, meets};
ghost use Rattle.packet_defs.specs.Test.{among, belongs, is_found, named, passes};
ghost use Rattle.packet_core.specs.Tests.{field_of, passes_all, probe_of, range_of, test_of, tests_of};
ghost use Rattle.packet_core.specs.Numbers.{address, holds, is_met, number, numbers_of, place};
ghost use Rattle.packet_core.specs.Classes.{AreBounds};

use crate::bounds::{Bounds, Prepared};
use list_core::List;
use policy_core::Class;
use policy_text_defs::{FieldName, Prefix, Probe, Range, Test, TestField};
use std::alloc::{AllocError, Global};

/// The indices that no field has.
const VERSION: usize = 6;

const SOURCE: usize = 7;

const TARGET: usize = 8;

/// Returns the index of a field.
fn place_of(field: FieldName) -> usize
    ensures value { result ≡ place (field_of field) }
    ensures bound { result < 9 }
{
    match field {
        FieldName::Vlan => 0,
        FieldName::Dscp => 1,
        FieldName::Proto => 2,
        FieldName::Sport => 3,
        FieldName::Dport => 4,
        FieldName::Len => 5,
    }
}

/// Bounds an address to those that agree with `address` in the first `bits` of its 32 bits.
fn prefix(place: usize, address: u32, bits: u32) -> Bounds
    requires { place < 9 }
    ensures place { result.place ≡ place }
    ensures agree { (other : ℕ) → (nat_le result.low other && nat_le other result.high) ≡
        agree bits address other }
    ensures few { result.high < 2 ^ 33 }
{
    let others = 32u32.saturating_sub(bits);
    let low = u64::from(address) >> others << others;
    Bounds {
        place,
        low,
        high: low + ((1u64 << others) - 1),
    }
}

/// Bounds a field by a minimum and a maximum.
fn within(field: FieldName, low: u32, high: u32) -> Bounds
    ensures { (fields : Fields) (n : ℕ) → holds (numbers_of fields n) result ≡
        meets fields n (in_range (field_of field) low high) }
{
    Bounds {
        place: place_of(field),
        low: u64::from(low),
        high: u64::from(high),
    }
}

/// Bounds the version to this one.
fn version(number: u8) -> Bounds
    ensures { (fields : Fields) (n : ℕ) → holds (numbers_of fields n) result ≡
        has_version number fields }
{
    Bounds {
        place: VERSION,
        low: u64::from(number),
        high: u64::from(number),
    }
}

/// Returns the bounds of a field that is in these ranges, if there is one range.
fn range_bounds(field: FieldName, ranges: &[Range]) -> Option<Bounds>
    ensures { IfSome result (λ bounds. (header : Header) (n : ℕ) →
        holds (numbers_of header.fields n) bounds ≡
        is_found header n (among (named (field_of field)) (map range_of ranges.now))) }
{
    if ranges.len() != 1 {
        return None;
    }
    let range = ranges[0];
    Some(within(field, range.low, range.high))
}

/// Returns the bounds of a probe, if it is one bound on one number.
fn probe_bounds(probe: &Probe) -> Option<Bounds>
    ensures { IfSome result (λ bounds. (header : Header) (n : ℕ) →
        holds (numbers_of header.fields n) bounds ≡ is_found header n (probe_of probe.now)) }
{
    match probe {
        Probe::Among(TestField::Named(field), ranges) => range_bounds(*field, ranges.as_slice()),
        Probe::Source(Prefix::V4(address, bits)) => Some(prefix(SOURCE, *address, *bits)),
        Probe::Dest(Prefix::V4(address, bits)) => Some(prefix(TARGET, *address, *bits)),
        Probe::Ipv4 => Some(version(4)),
        Probe::Ipv6 => Some(version(6)),
        _ => None,
    }
}

/// Returns the bounds of a test, if it is one bound on one number.
fn bound_of(test: &Test) -> Option<Bounds>
    ensures { IfSome result (λ bounds. (header : Header) (n : ℕ) →
        holds (numbers_of header.fields n) bounds ≡ passes header n (test_of test.now)) }
{
    if test.negated {
        return None;
    }
    probe_bounds(&test.probe)
}

/// Returns bounds that every packet meets.
fn anything() -> Bounds
    ensures { (fields : Fields) (n : ℕ) → holds (numbers_of fields n) result ≡ true }
{
    Bounds {
        place: SOURCE,
        low: 0,
        high: u64::MAX,
    }
}

/// Returns the bounds of tests, if each is one bound.
fn bounds_of(alloc: Global, tests: &[Test]) -> Result<Option<Vec<Bounds>>, AllocError>
    ensures { IfOk result (λ some. IfSome some (λ all. (header : Header) (n : ℕ) →
        list_all (holds (numbers_of header.fields n)) all.items ≡ passes_all header n tests.now)) }
{
    let mut all = Vec::new(alloc);
    for test in tests {
        let Some(bounds) = bound_of(test) else {
            return Ok(None);
        };
        all.push(bounds)?;
    }
    Ok(Some(all))
}

/// Prepares the tests of a class with one alternative, if each is one bound.
fn prepare_tests(alloc: Global, tests: &[Test]) -> Result<Option<Prepared>, AllocError>
    ensures { IfOk result (λ some. IfSome some (λ class. (header : Header) (n : ℕ) →
        is_met (numbers_of header.fields n) class ≡ passes_all header n tests.now)) }
{
    if tests.is_empty() {
        return Ok(Some(Prepared {
            first: anything(),
            others: Vec::new(alloc),
        }));
    }
    let Some(first) = bound_of(&tests[0]) else {
        return Ok(None);
    };
    match bounds_of(alloc, &tests[1..])? {
        Some(others) => Ok(Some(Prepared { first, others })),
        None => Ok(None),
    }
}

/// Prepares a class as bounds, if it has at most one alternative and each test is one bound.
fn prepare(alloc: Global, alternatives: &[List<Test>]) -> Result<Option<Prepared>, AllocError>
    ensures { IfOk result (λ some. IfSome some (λ class. (header : Header) (n : ℕ) →
        is_met (numbers_of header.fields n) class ≡ belongs header n (tests_of alternatives.now))) }
{
    if alternatives.is_empty() {
        return Ok(Some(Prepared {
            first: anything(),
            others: Vec::new(alloc),
        }));
    }
    if alternatives.len() > 1 {
        return Ok(None);
    }
    prepare_tests(alloc, alternatives[0].as_slice())
}

/// Prepares classes as bounds, if each can be prepared so.
pub(crate) fn bound_classes(
    alloc: Global,
    given: &[Class],
) -> Result<Option<Vec<Prepared>>, AllocError>
    ensures { IfOk result (λ some. IfSome some (λ classes. AreBounds classes.items given.now)) }
{
    let mut classes = Vec::new(alloc);
    for class in given {
        let Some(prepared) = prepare(alloc, class.conditions.as_slice())? else {
            return Ok(None);
        };
        classes.push(prepared)?;
    }
    Ok(Some(classes))
}
