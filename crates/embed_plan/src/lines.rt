//! The lines of a plan.
ghost use Rattle.std.specs.Prelude.{◌≡◌, ◌++◌, ◌∷◌, OnOk};
ghost use Rattle.embed_plan.specs.Plan.{address_text, least_line, map_line};

use std::alloc::AllocError;
use text_core::put_decimal;

/// Appends the digits of an address, joined by dots.
fn put_digits(into: &mut Vec<u8>, first: u32, rest: &[u32]) -> Result<(), AllocError>
    ensures { OnOk result (into.new.items ≡ into.old.items ++ address_text (first ∷ rest.now)) }
{
    put_decimal(into, first as u128)?;
    for digit in rest {
        into.push(b'.')?;
        put_decimal(into, *digit as u128)?;
    }
    Ok(())
}

fn put_address(into: &mut Vec<u8>, address: &[u32]) -> Result<(), AllocError>
    ensures { OnOk result (into.new.items ≡ into.old.items ++ address_text address.now) }
{
    match address {
        [] => into.extend_from_slice(b"-"),
        [first, rest @ ..] => put_digits(into, *first, rest),
    }
}

pub fn put_least(into: &mut Vec<u8>, height: u32) -> Result<(), AllocError>
    ensures { OnOk result (into.new.items ≡ into.old.items ++ least_line height) }
{
    into.extend_from_slice(b"least ")?;
    put_decimal(into, height as u128)?;
    into.extend_from_slice(b"\n")
}

pub fn put_map(
    into: &mut Vec<u8>,
    name: &str,
    source: &[u32],
    image: &[u32],
) -> Result<(), AllocError>
    ensures { OnOk result (into.new.items ≡ into.old.items ++ map_line name.now source.now
        image.now) }
{
    into.extend_from_slice(b"map ")?;
    into.extend_from_slice(name.as_bytes())?;
    into.extend_from_slice(b" ")?;
    put_address(into, source)?;
    into.extend_from_slice(b" ")?;
    put_address(into, image)?;
    into.extend_from_slice(b"\n")
}
