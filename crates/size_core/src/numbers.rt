//! Numbers as text, and their bits.
ghost use Rattle.std.specs.Prelude.{ℕ, ◌≡◌, ◌++◌, ◌^◌, ◌<◌, ◌≤◌, OnOk};
ghost use Rattle.size_core.specs.Numbers.{bits_for, number_text};

use std::alloc::AllocError;
use text_core::put_decimal;

/// Returns the least number of bits of a field that holds the numbers from 0 to the maximum.
pub fn bits_for(maximum: u64) -> u32
    ensures value { result ≡ bits_for maximum }
    ensures enough { maximum < 2 ^ result }
    ensures least { (bits : ℕ) → maximum < 2 ^ bits → result ≤ bits }
{
    u64::BITS - maximum.leading_zeros()
}

/// Appends a number after the words before it.
#[tactic(auto, unfolding(crate::specs::Numbers::number_text))]
pub(crate) fn put_wide(into: &mut Vec<u8>, words: &[u8], number: u128) -> Result<(), AllocError>
    ensures { OnOk result (into.new.items ≡ into.old.items ++ number_text words.now number) }
{
    into.extend_from_slice(words)?;
    put_decimal(into, number)
}

/// Appends a number after the words before it.
pub(crate) fn put_number(into: &mut Vec<u8>, words: &[u8], number: u64) -> Result<(), AllocError>
    ensures { OnOk result (into.new.items ≡ into.old.items ++ number_text words.now number) }
{
    put_wide(into, words, u128::from(number))
}

/// Appends words.
pub(crate) fn put_words(into: &mut Vec<u8>, words: &[u8]) -> Result<(), AllocError>
    ensures { OnOk result (into.new.items ≡ into.old.items ++ words.now) }
{
    into.extend_from_slice(words)
}
