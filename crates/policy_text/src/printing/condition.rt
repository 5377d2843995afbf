//! Prints a condition.
ghost use Rattle.std.specs.Prelude.{◌≡◌, ◌++◌, OnOk, codes};
ghost use Rattle.std.specs.Fmt.{decimal};
ghost use Rattle.policy_text_defs.specs.Words.{field_word};
ghost use Rattle.policy_text_defs.specs.Canonical.{between_text, range_text, address_text, condition_text, more_conditions_text, guard_text};

use policy_text_defs::{Condition, FieldName};
use std::alloc::AllocError;
use text_core::put_decimal;

pub fn field_word(field: FieldName) -> &'static [u8]
    ensures { result.now ≡ field_word field }
{
    match field {
        FieldName::Vlan => b"vlan",
        FieldName::Dscp => b"dscp",
        FieldName::Proto => b"proto",
        FieldName::Sport => b"sport",
        FieldName::Dport => b"dport",
        FieldName::Len => b"len",
    }
}

/// Appends `LOW..HIGH`.
pub fn put_between(into: &mut Vec<u8>, low: u64, high: u64) -> Result<(), AllocError>
    ensures { OnOk result (into.new.items ≡ into.old.items ++ between_text low high) }
{
    put_decimal(into, low as u128)?;
    into.extend_from_slice(b"..")?;
    put_decimal(into, high as u128)
}

pub fn put_range(into: &mut Vec<u8>, low: u32, high: u32) -> Result<(), AllocError>
    ensures { OnOk result (into.new.items ≡ into.old.items ++ range_text low high) }
{
    if low == high {
        return put_decimal(into, low as u128);
    }
    put_between(into, low as u64, high as u64)
}

/// Appends a number and the mark after it.
fn put_octet(into: &mut Vec<u8>, octet: u32, mark: &[u8]) -> Result<(), AllocError>
    ensures { OnOk result (into.new.items ≡ into.old.items ++ (decimal octet ++ mark.now)) }
{
    put_decimal(into, octet as u128)?;
    into.extend_from_slice(mark)
}

/// Appends an IPv4 address and its prefix length.
pub fn put_address(into: &mut Vec<u8>, address: u32, prefix: u32) -> Result<(), AllocError>
    ensures { OnOk result (into.new.items ≡ into.old.items ++ address_text address prefix) }
{
    put_octet(into, address / 16_777_216, b".")?;
    put_octet(into, address / 65_536 % 256, b".")?;
    put_octet(into, address / 256 % 256, b".")?;
    put_octet(into, address % 256, b"/")?;
    put_decimal(into, prefix as u128)
}

fn put_condition(into: &mut Vec<u8>, condition: &Condition) -> Result<(), AllocError>
    ensures { OnOk result (into.new.items ≡ into.old.items ++ condition_text condition.now) }
{
    match condition {
        Condition::Field(field, low, high) => {
            into.extend_from_slice(field_word(*field))?;
            into.extend_from_slice(b" ")?;
            put_range(into, *low, *high)
        }
        Condition::Source(address, prefix) => {
            into.extend_from_slice(b"src ")?;
            put_address(into, *address, *prefix)
        }
        Condition::Dest(address, prefix) => {
            into.extend_from_slice(b"dst ")?;
            put_address(into, *address, *prefix)
        }
        Condition::Ipv4 => into.extend_from_slice(b"ipv4"),
        Condition::Ipv6 => into.extend_from_slice(b"ipv6"),
    }
}

/// Appends ` and` and a condition.
fn put_also(into: &mut Vec<u8>, condition: &Condition) -> Result<(), AllocError>
    ensures { OnOk result (into.new.items ≡ into.old.items ++
        (codes " and " ++ condition_text condition.now)) }
{
    into.extend_from_slice(b" and ")?;
    put_condition(into, condition)
}

/// Appends the conditions after the first.
fn put_more_conditions(into: &mut Vec<u8>, conditions: &[Condition]) -> Result<(), AllocError>
    ensures { OnOk result (into.new.items ≡ into.old.items ++ more_conditions_text conditions.now) }
{
    for condition in conditions {
        put_also(into, condition)?;
    }
    Ok(())
}

/// Appends ` when` and the conditions, or nothing.
pub fn put_guard(into: &mut Vec<u8>, conditions: &[Condition]) -> Result<(), AllocError>
    ensures { OnOk result (into.new.items ≡ into.old.items ++ guard_text conditions.now) }
{
    let [first, rest @ ..] = conditions else {
        return Ok(());
    };
    into.extend_from_slice(b" when ")?;
    put_condition(into, first)?;
    put_more_conditions(into, rest)
}
