//! Numbers as text.
ghost use Rattle.std.specs.Prelude.{◌≡◌, ◌++◌, OnOk};
ghost use Rattle.summary_core.specs.Numbers.{last_digit, number_text, millionths_text};

use std::alloc::AllocError;
use text_core::put_decimal;

/// Appends a number after the words before it.
#[tactic(auto, unfolding(crate::specs::Numbers::number_text))]
pub(crate) fn put_wide(into: &mut Vec<u8>, words: &[u8], number: u128) -> Result<(), AllocError>
    ensures { OnOk result (into.new.items ≡ into.old.items ++ number_text words.now number) }
{
    into.extend_from_slice(words)?;
    put_decimal(into, number)
}

/// Appends a number after the words before it.
pub(crate) fn put_number(into: &mut Vec<u8>, words: &[u8], number: u64) -> Result<(), AllocError>
    ensures { OnOk result (into.new.items ≡ into.old.items ++ number_text words.now number) }
{
    put_wide(into, words, u128::from(number))
}

/// Returns the last digit of a number.
fn last_digit(number: u128) -> u8
    ensures { result ≡ last_digit number }
{
    b'0' + (number % 10) as u8
}

/// Appends millionths as a decimal fraction with six places.
#[tactic(auto, unfolding(crate::specs::Numbers::millionths_text))]
pub(crate) fn put_millionths(into: &mut Vec<u8>, number: u128) -> Result<(), AllocError>
    ensures { OnOk result (into.new.items ≡ into.old.items ++ millionths_text number) }
{
    put_decimal(into, number / 1_000_000)?;
    into.extend_from_slice(&[
        b'.',
        last_digit(number / 100_000),
        last_digit(number / 10_000),
        last_digit(number / 1_000),
        last_digit(number / 100),
        last_digit(number / 10),
        last_digit(number),
    ])
}
