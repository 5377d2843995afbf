//! Numbers in decimal, read and written.
ghost use Rattle.std.specs.Prelude.{◌≡◌, ◌+◌, ◌≤◌, ◌<◌, ◌++◌, length, OnOk, OnErr, vec_len, vec_capacity, decimal, IfSome};
ghost use Rattle.text_core.specs.Decimals.{number_of, max};

use itoa::Buffer;
use std::alloc::AllocError;

/// The greatest number of the language, 2^62 - 1.
pub const MAX: u64 = (1 << 62) - 1;

/// Returns the number that the digits represent, or `None` if a byte isn't a digit, there are no
/// digits, or the number is above `MAX`.
pub fn decimal(token: &[u8]) -> Option<u64>
    ensures value { result ≡ number_of token.now }
    ensures limit { IfSome result (λ n. n ≤ max) }
{
    if token.is_empty() {
        return None;
    }
    let mut value: u64 = 0;
    for byte in token {
        if !byte.is_ascii_digit() {
            return None;
        }
        let digit = (*byte - b'0') as u64;
        if value > (MAX - digit) / 10 {
            return None;
        }
        value = value * 10 + digit;
    }
    Some(value)
}

/// Appends the digits of a number, without leading zeros.
pub fn put_decimal(into: &mut Vec<u8>, value: u128) -> Result<(), AllocError>
    ensures ok { OnOk result (into.new.items ≡ into.old.items ++ decimal value) }
    ensures err { OnErr result (into.new.items ≡ into.old.items) }
    ensures room { OnErr result (vec_capacity into.old < vec_len into.old + 39) }
    ensures capacity { vec_capacity into.old ≤ vec_capacity into.new }
{
    let mut digits = Buffer::new();
    into.extend_from_slice(digits.format(value).as_bytes())
}
