//! The tests of classes: those of conditions, and copies of others.
ghost use Rattle.std.specs.Prelude.{◌≡◌, ◌∷◌, [], map, IfOk};
ghost use Rattle.policy_rules.specs.Alternatives.{alternatives_of, probe_of, test_of};

use list_core::List;
use policy_text_defs::{Condition, Prefix, Probe, Range, Test, TestField};
use std::alloc::{AllocError, Global};

fn one_range(alloc: Global, low: u32, high: u32) -> Result<List<Range>, AllocError>
    ensures { IfOk result (λ ranges. ranges ≡ record { low = low; high = high } ∷ []) }
{
    let mut ranges = Vec::new(alloc);
    ranges.push(Range { low, high })?;
    Ok(List::from_vec(ranges))
}

fn probe_of(alloc: Global, condition: Condition) -> Result<Probe, AllocError>
    ensures { IfOk result (λ probe. probe ≡ probe_of condition) }
{
    Ok(match condition {
        Condition::Field(field, low, high) => {
            let ranges = one_range(alloc, low, high)?;
            Probe::Among(TestField::Named(field), ranges)
        }
        Condition::Source(address, bits) => Probe::Source(Prefix::V4(address, bits)),
        Condition::Dest(address, bits) => Probe::Dest(Prefix::V4(address, bits)),
        Condition::Ipv4 => Probe::Ipv4,
        Condition::Ipv6 => Probe::Ipv6,
    })
}

fn test_of(alloc: Global, condition: Condition) -> Result<Test, AllocError>
    ensures { IfOk result (λ test. test ≡ test_of condition) }
{
    let probe = probe_of(alloc, condition)?;
    Ok(Test {
        negated: false,
        probe,
    })
}

fn tests_of(alloc: Global, conditions: &[Condition]) -> Result<List<Test>, AllocError>
    ensures { IfOk result (λ tests. tests ≡ map test_of conditions.now) }
{
    let mut tests = List::from_vec(Vec::new(alloc));
    for condition in conditions {
        tests.push(test_of(alloc, *condition)?)?;
    }
    Ok(tests)
}

/// Returns the alternatives of conditions: one, or none if there is no condition. The error means
/// out of memory.
pub(crate) fn alternatives_of(
    alloc: Global,
    conditions: &[Condition],
) -> Result<List<List<Test>>, AllocError>
    ensures { IfOk result (λ alternatives. alternatives ≡ alternatives_of conditions.now) }
{
    let mut alternatives = List::from_vec(Vec::new(alloc));
    if !conditions.is_empty() {
        alternatives.push(tests_of(alloc, conditions)?)?;
    }
    Ok(alternatives)
}

fn copy_probe(alloc: Global, probe: &Probe) -> Result<Probe, AllocError>
    ensures { IfOk result (λ copy. copy ≡ probe.now) }
{
    Ok(match probe {
        Probe::Among(field, ranges) => {
            let copy = List::from_vec(Vec::from_slice(alloc, ranges.as_slice())?);
            Probe::Among(*field, copy)
        }
        Probe::Source(prefix) => Probe::Source(*prefix),
        Probe::Dest(prefix) => Probe::Dest(*prefix),
        Probe::Flags(value, mask) => Probe::Flags(*value, *mask),
        Probe::Ipv4 => Probe::Ipv4,
        Probe::Ipv6 => Probe::Ipv6,
    })
}

fn copy_test(alloc: Global, test: &Test) -> Result<Test, AllocError>
    ensures { IfOk result (λ copy. copy ≡ test.now) }
{
    let probe = copy_probe(alloc, &test.probe)?;
    Ok(Test {
        negated: test.negated,
        probe,
    })
}

fn copy_tests(alloc: Global, tests: &[Test]) -> Result<List<Test>, AllocError>
    ensures { IfOk result (λ copies. copies ≡ tests.now) }
{
    let mut copies = List::from_vec(Vec::new(alloc));
    for test in tests {
        copies.push(copy_test(alloc, test)?)?;
    }
    Ok(copies)
}

/// Copies alternatives. The error means out of memory.
pub(crate) fn copy_alternatives(
    alloc: Global,
    alternatives: &[List<Test>],
) -> Result<List<List<Test>>, AllocError>
    ensures { IfOk result (λ copies. copies ≡ alternatives.now) }
{
    let mut copies = List::from_vec(Vec::new(alloc));
    for tests in alternatives {
        copies.push(copy_tests(alloc, tests.as_slice())?)?;
    }
    Ok(copies)
}
