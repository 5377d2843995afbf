//! The tests of classes, prepared for testing many packets.
ghost use Rattle.std.specs.Prelude.{◌≡◌, ℕ, IfOk, map, position};
ghost use Rattle.std.specs.List.{list_any};
ghost use Rattle.packet_defs.specs.declared.extra.Header.{Header};
ghost use Rattle.packet_defs.specs.Test.{is_found, passes, belongs};
ghost use Rattle.packet_core.specs.Tests.{probe_of, test_of, tests_of, passes_all};
ghost use Rattle.packet_core.specs.Rules.{is_found_by, passes_by, all_pass, one_passes};
ghost use Rattle.packet_core.specs.Classes.{AreRules};

use crate::ranges::Ranges;
use crate::tests::{flags_byte, has_prefix, has_version, have_flags, number_of};
use list_core::List;
use packet_defs::Header as PacketHeader;
use policy_core::Class;
use policy_text_defs::{Prefix, Probe, Test, TestField};
use std::alloc::{AllocError, Global};

/// A prepared probe.
#[derive(Drop)]
pub(crate) enum Search {
    Among(TestField, Ranges),
    Source(Prefix),
    Target(Prefix),
    /// The value that the flags of the mask have, and the mask.
    Flags(u8, u8),
    Ipv4,
    Ipv6,
}

/// A prepared test.
#[derive(Drop)]
pub(crate) struct Rule {
    pub(crate) negated: bool,
    pub(crate) search: Search,
}

/// The prepared tests of one alternative.
#[derive(Drop)]
pub(crate) struct Rules {
    pub(crate) all: Vec<Rule>,
}

/// The prepared alternatives of a class.
#[derive(Drop)]
pub(crate) struct Alternatives {
    pub(crate) all: Vec<Rules>,
}

fn prepare_probe(alloc: Global, probe: &Probe) -> Result<Search, AllocError>
    ensures { IfOk result (λ search. (header : Header) (n : ℕ) → is_found_by header n search ≡
        is_found header n (probe_of probe.now)) }
{
    Ok(match probe {
        Probe::Among(field, ranges) => {
            Search::Among(*field, Ranges::new(alloc, ranges.as_slice())?)
        }
        Probe::Source(prefix) => Search::Source(*prefix),
        Probe::Dest(prefix) => Search::Target(*prefix),
        Probe::Flags(value, mask) => Search::Flags(flags_byte(*value), flags_byte(*mask)),
        Probe::Ipv4 => Search::Ipv4,
        Probe::Ipv6 => Search::Ipv6,
    })
}

fn prepare_test(alloc: Global, test: &Test) -> Result<Rule, AllocError>
    ensures { IfOk result (λ rule. (header : Header) (n : ℕ) → passes_by header n rule ≡
        passes header n (test_of test.now)) }
{
    Ok(Rule {
        negated: test.negated,
        search: prepare_probe(alloc, &test.probe)?,
    })
}

fn prepare_tests(alloc: Global, tests: &[Test]) -> Result<Rules, AllocError>
    ensures { IfOk result (λ rules. (header : Header) (n : ℕ) → all_pass header n rules ≡
        passes_all header n tests.now) }
{
    let mut all = Vec::new(alloc);
    for test in tests {
        all.push(prepare_test(alloc, test)?)?;
    }
    Ok(Rules { all })
}

/// Prepares the alternatives of a class.
fn prepare_alternatives(
    alloc: Global,
    alternatives: &[List<Test>],
) -> Result<Alternatives, AllocError>
    ensures { IfOk result (λ class. (header : Header) (n : ℕ) →
        one_passes header n class.all.items ≡ belongs header n (tests_of alternatives.now)) }
{
    let mut all = Vec::new(alloc);
    for tests in alternatives {
        all.push(prepare_tests(alloc, tests.as_slice())?)?;
    }
    Ok(Alternatives { all })
}

/// Returns whether a prepared probe holds for a packet of this original length.
fn is_found(search: &Search, header: &PacketHeader, len: u32) -> bool
    ensures { result ≡ is_found_by header.now len search.now }
{
    match search {
        Search::Among(field, ranges) => match number_of(*field, header, len) {
            Some(number) => ranges.contains(number),
            None => false,
        },
        Search::Source(prefix) => has_prefix(*prefix, header, header.fields.source),
        Search::Target(prefix) => has_prefix(*prefix, header, header.fields.target),
        Search::Flags(value, mask) => match header.extra.flags {
            Some(flags) => have_flags(*value, *mask, flags),
            None => false,
        },
        Search::Ipv4 => has_version(4, &header.fields),
        Search::Ipv6 => has_version(6, &header.fields),
    }
}

fn passes(rule: &Rule, header: &PacketHeader, len: u32) -> bool
    ensures { result ≡ passes_by header.now len rule.now }
{
    let found = is_found(&rule.search, header, len);
    if rule.negated { !found } else { found }
}

fn all_pass(rules: &Rules, header: &PacketHeader, len: u32) -> bool
    ensures { result ≡ all_pass header.now len rules.now }
{
    rules.all.iter().all(|rule| passes(rule, header, len))
}

fn any_passes(all: &[Rules], header: &PacketHeader, len: u32) -> bool
    ensures { result ≡ list_any (all_pass header.now len) all.now }
{
    all.iter().any(|rules| all_pass(rules, header, len))
}

/// Returns whether a packet of this original length belongs to a class.
fn one_passes(class: &Alternatives, header: &PacketHeader, len: u32) -> bool
    ensures { result ≡ one_passes header.now len class.now.all.items }
{
    if class.all.is_empty() {
        return true;
    }
    any_passes(&class.all, header, len)
}

/// Prepares the tests of classes.
pub(crate) fn tested_classes(
    alloc: Global,
    given: &[Class],
) -> Result<Vec<Alternatives>, AllocError>
    ensures { IfOk result (λ classes. AreRules classes.items given.now) }
{
    let mut classes = Vec::new(alloc);
    for class in given {
        classes.push(prepare_alternatives(alloc, class.conditions.as_slice())?)?;
    }
    Ok(classes)
}

/// Returns the index of the first class to which a packet of this original length belongs.
pub(crate) fn place_passed(
    classes: &[Alternatives],
    header: &PacketHeader,
    len: u32,
) -> Option<usize>
    ensures { result ≡ position (λ c. one_passes header.now len c.all.items) classes.now }
{
    classes
        .iter()
        .position(|class| one_passes(class, header, len))
}
