//! Prints the conditions of the third edition.
ghost use Rattle.std.specs.Prelude.{◌≡◌, ◌++◌, OnOk, codes};
ghost use Rattle.std.specs.Net.Text.{hex_groups_text};
ghost use Rattle.policy_text_defs.specs.Tests.{test_field_word, flag_word};
ghost use Rattle.policy_text_defs.specs.Canonical as text;

use crate::address::address_of;
use crate::printing::condition::{field_word, put_address, put_range};
use list_core::List;
use policy_text_defs::{Flag, Prefix, Probe, Range, TcpFlags, Test, TestField};
use std::alloc::AllocError;
use text_core::put_decimal;

/// The flags in the order in which they are printed.
const FLAGS: [Flag; 8] = [
    Flag::Fin,
    Flag::Syn,
    Flag::Rst,
    Flag::Psh,
    Flag::Ack,
    Flag::Urg,
    Flag::Ece,
    Flag::Cwr,
];

fn test_field_word(field: TestField) -> &'static [u8]
    ensures { result.now ≡ test_field_word field }
{
    match field {
        TestField::Named(field) => field_word(field),
        TestField::Pcp => b"pcp",
        TestField::Ethertype => b"ethertype",
    }
}

fn flag_word(flag: Flag) -> &'static [u8]
    ensures { result.now ≡ flag_word flag }
{
    match flag {
        Flag::Fin => b"fin",
        Flag::Syn => b"syn",
        Flag::Rst => b"rst",
        Flag::Psh => b"psh",
        Flag::Ack => b"ack",
        Flag::Urg => b"urg",
        Flag::Ece => b"ece",
        Flag::Cwr => b"cwr",
    }
}

/// Appends the ranges after the first.
fn put_more_ranges(into: &mut Vec<u8>, ranges: &[Range]) -> Result<(), AllocError>
    ensures { OnOk result (into.new.items ≡ into.old.items ++
        text.each_after (codes ", ") text.range_of_text ranges.now) }
{
    for range in ranges {
        into.extend_from_slice(b", ")?;
        put_range(into, range.low, range.high)?;
    }
    Ok(())
}

/// Appends a range, or ranges in braces.
fn put_ranges(into: &mut Vec<u8>, ranges: &[Range]) -> Result<(), AllocError>
    ensures { OnOk result (into.new.items ≡ into.old.items ++ text.ranges_text ranges.now) }
{
    match ranges {
        [] => Ok(()),
        [range] => put_range(into, range.low, range.high),
        [first, rest @ ..] => {
            into.extend_from_slice(b"{")?;
            put_range(into, first.low, first.high)?;
            put_more_ranges(into, rest)?;
            into.extend_from_slice(b"}")
        }
    }
}

fn put_ipv6(into: &mut Vec<u8>, address: u128) -> Result<(), AllocError>
    ensures { OnOk result (into.new.items ≡ into.old.items ++ hex_groups_text
        (text.segments_of address)) }
{
    let text = String::format(*into.allocator(), address_of(address).hex_groups())?;
    into.extend_from_slice(text.as_bytes())
}

fn put_prefix(into: &mut Vec<u8>, prefix: Prefix) -> Result<(), AllocError>
    ensures { OnOk result (into.new.items ≡ into.old.items ++ text.prefix_text prefix) }
{
    match prefix {
        Prefix::V4(address, length) => put_address(into, address, length),
        Prefix::V6(address, length) => {
            put_ipv6(into, address)?;
            into.extend_from_slice(b"/")?;
            put_decimal(into, length as u128)
        }
    }
}

/// Appends the flags that are set among these, each after `+`.
fn put_more_flags(into: &mut Vec<u8>, flags: TcpFlags, among: &[Flag]) -> Result<(), AllocError>
    ensures { OnOk result (into.new.items ≡ into.old.items ++ text.each_after (codes "+") flag_word
        (text.set_among flags among.now)) }
{
    for flag in among {
        if flags.has(*flag) {
            into.extend_from_slice(b"+")?;
            into.extend_from_slice(flag_word(*flag))?;
        }
    }
    Ok(())
}

/// Appends the flags that are set among these, with `+` between them, or `none`.
fn put_flags_among(into: &mut Vec<u8>, flags: TcpFlags, among: &[Flag]) -> Result<(), AllocError>
    ensures { OnOk result (into.new.items ≡ into.old.items ++ text.listed_text
        (text.set_among flags among.now)) }
{
    match among {
        [] => into.extend_from_slice(b"none"),
        [first, rest @ ..] => {
            if !flags.has(*first) {
                return put_flags_among(into, flags, rest);
            }
            into.extend_from_slice(flag_word(*first))?;
            put_more_flags(into, flags, rest)
        }
    }
}

fn put_flags(into: &mut Vec<u8>, flags: TcpFlags) -> Result<(), AllocError>
    ensures { OnOk result (into.new.items ≡ into.old.items ++ text.flags_text flags) }
{
    put_flags_among(into, flags, &FLAGS)
}

fn put_probe(into: &mut Vec<u8>, probe: &Probe) -> Result<(), AllocError>
    ensures { OnOk result (into.new.items ≡ into.old.items ++ text.probe_text probe.now) }
{
    match probe {
        Probe::Among(field, ranges) => {
            into.extend_from_slice(test_field_word(*field))?;
            into.extend_from_slice(b" ")?;
            put_ranges(into, ranges.as_slice())
        }
        Probe::Source(prefix) => {
            into.extend_from_slice(b"src ")?;
            put_prefix(into, *prefix)
        }
        Probe::Dest(prefix) => {
            into.extend_from_slice(b"dst ")?;
            put_prefix(into, *prefix)
        }
        Probe::Flags(value, mask) => {
            into.extend_from_slice(b"tcpflags ")?;
            put_flags(into, *value)?;
            into.extend_from_slice(b"/")?;
            put_flags(into, *mask)
        }
        Probe::Ipv4 => into.extend_from_slice(b"ipv4"),
        Probe::Ipv6 => into.extend_from_slice(b"ipv6"),
    }
}

fn put_test(into: &mut Vec<u8>, test: &Test) -> Result<(), AllocError>
    ensures { OnOk result (into.new.items ≡ into.old.items ++ text.test_text test.now) }
{
    if test.negated {
        into.extend_from_slice(b"not ")?;
    }
    put_probe(into, &test.probe)
}

/// Appends the tests after the first.
fn put_more_tests(into: &mut Vec<u8>, tests: &[Test]) -> Result<(), AllocError>
    ensures { OnOk result (into.new.items ≡ into.old.items ++
        text.each_after (codes " and ") text.test_text tests.now) }
{
    for test in tests {
        into.extend_from_slice(b" and ")?;
        put_test(into, test)?;
    }
    Ok(())
}

/// Appends tests with `and` between them.
fn put_tests(into: &mut Vec<u8>, tests: &[Test]) -> Result<(), AllocError>
    ensures { OnOk result (into.new.items ≡ into.old.items ++ text.tests_text tests.now) }
{
    let [first, rest @ ..] = tests else {
        return Ok(());
    };
    put_test(into, first)?;
    put_more_tests(into, rest)
}

/// Appends the alternatives after the first.
fn put_more_alternatives(into: &mut Vec<u8>, alternatives: &[List<Test>]) -> Result<(), AllocError>
    ensures { OnOk result (into.new.items ≡ into.old.items ++
        text.each_after (codes " or ") text.tests_text alternatives.now) }
{
    for tests in alternatives {
        into.extend_from_slice(b" or ")?;
        put_tests(into, tests.as_slice())?;
    }
    Ok(())
}

/// Appends ` when` and the alternatives, or nothing.
pub fn put_alternatives(into: &mut Vec<u8>, alternatives: &[List<Test>]) -> Result<(), AllocError>
    ensures { OnOk result (into.new.items ≡ into.old.items ++ text.alternatives_text
        alternatives.now) }
{
    let [first, rest @ ..] = alternatives else {
        return Ok(());
    };
    into.extend_from_slice(b" when ")?;
    put_tests(into, first.as_slice())?;
    put_more_alternatives(into, rest)
}
