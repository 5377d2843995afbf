//! Rates with units, such as 10Mbit.
ghost use Rattle.std.specs.Prelude.{◌≡◌, ◌+◌, ◌*◌, ◌^◌, ◌<◌, ◌≤◌, length, IfOk};
ghost use Rattle.std.specs.List.{prefix_len};
ghost use Rattle.text_core.specs.Tokens.{is_digit};
ghost use Rattle.text_core.specs.Decimals.{number_of};
ghost use Rattle.sched_defs.specs.SendTime.{IsByteRate};
ghost use Rattle.front_defs.specs.Rates.{most_whole, most_digits, rate_written, whole_bytes, rate_by, rate_of_digits, rate_in};

use crate::unit::{Unit, unit_of};
use events_core::MOST_RATE;
use text_core::decimal;

/// Why an argument is not a rate.
#[derive(Clone, Copy, PartialEq, Eq, Debug)]
pub enum RateFault {
    /// It doesn't begin with a number, or no digit follows the point.
    NoNumber,
    /// The text after the number is not a unit.
    NoUnit,
    /// More than twelve digits follow the point.
    TooFine,
    /// It is not a whole number of bytes per second.
    NotExact,
    /// It is less than 1 byte per second, or more than the greatest rate.
    OutOfRange,
}

/// The greatest whole number in a rate.
const MOST_WHOLE: u64 = 8 * MOST_RATE;

/// The most digits after a point.
const MOST_DIGITS: usize = 12;

/// Returns the number of digits at the start of the bytes.
fn digits(bytes: &[u8]) -> usize
    ensures count { result ≡ prefix_len is_digit bytes.now }
    ensures within { result ≤ length bytes.now }
{
    bytes
        .iter()
        .take_while(|byte| byte.is_ascii_digit())
        .count()
}

/// Converts `count` parts of a byte to bytes per second, where `parts` of them make a byte. Fails
/// if the result is not a whole number, or is out of range.
fn whole_bytes(count: u128, parts: u128) -> Result<u64, RateFault>
    requires { 1 ≤ parts }
    ensures value { result ≡ whole_bytes count parts }
    ensures range { IfOk result IsByteRate }
{
    if count % parts != 0 {
        return Err(RateFault::NotExact);
    }
    let rate = count / parts;
    if rate == 0 || rate > MOST_RATE as u128 {
        return Err(RateFault::OutOfRange);
    }
    Ok(rate as u64)
}

/// Converts a number of units to bytes per second. `places` is the number of digits after the
/// point.
fn rate_by(whole: u64, part: u64, places: usize, unit: Unit) -> Result<u64, RateFault>
    requires whole { whole ≤ most_whole }
    requires places { places ≤ most_digits }
    requires scale { (1 ≤ unit.scale) × (unit.scale ≤ 10 ^ 12) }
    requires parts { (1 ≤ unit.parts) × (unit.parts ≤ 8) }
    ensures value { result ≡ rate_by whole part places unit }
    ensures range { IfOk result IsByteRate }
{
    let power = 10u128.pow(places as u32);
    let number = whole as u128 * power + part as u128;
    whole_bytes(number * unit.scale as u128, power * unit.parts as u128)
}

/// Converts the digits of a number of units to bytes per second.
fn rate_of_digits(whole: &[u8], part: &[u8], unit: Unit) -> Result<u64, RateFault>
    requires places { length part.now ≤ most_digits }
    requires scale { (1 ≤ unit.scale) × (unit.scale ≤ 10 ^ 12) }
    requires parts { (1 ≤ unit.parts) × (unit.parts ≤ 8) }
    ensures value { result ≡ rate_of_digits (number_of whole.now) (number_of part.now)
        (length part.now) unit }
    ensures range { IfOk result IsByteRate }
{
    let (Some(number), Some(fraction)) = (decimal(whole), decimal(part)) else {
        return Err(RateFault::NoNumber);
    };
    if number > MOST_WHOLE {
        return Err(RateFault::OutOfRange);
    }
    rate_by(number, fraction, part.len(), unit)
}

/// Converts digits, digits after a point, and the name of a unit to bytes per second.
fn rate_written(whole: &[u8], part: &[u8], unit: &[u8]) -> Result<u64, RateFault>
    ensures value { result ≡ rate_written (record {
      whole = whole.now;
      part = part.now;
      unit =
          unit.now;
    }) }
    ensures range { IfOk result IsByteRate }
{
    if part.len() > MOST_DIGITS {
        return Err(RateFault::TooFine);
    }
    let Some(unit) = unit_of(unit) else {
        return Err(RateFault::NoUnit);
    };
    rate_of_digits(whole, part, unit)
}

/// Parses a rate and returns it in bytes per second, without rounding.
pub fn rate_in(word: &[u8]) -> Result<u64, RateFault>
    ensures value { result ≡ rate_in word.now }
    ensures range { IfOk result IsByteRate }
{
    let (whole, rest) = word.split_at(digits(word));
    match rest {
        [b'.', behind @ ..] => {
            let (part, unit) = behind.split_at(digits(behind));
            rate_written(whole, part, unit)
        }
        _ => rate_written(whole, b"0", rest),
    }
}
