//! Timestamps in nanoseconds.
ghost use Rattle.std.specs.Prelude.{◌≡◌, ◌<◌, ◌^◌, min, SomeIff};
ghost use Rattle.rank_defs.specs.Programs.{max_rank};
ghost use Rattle.pcapng_defs.specs.Moment;

use pcapng_defs::Unit;
use rank_defs::MAX_RANK;

const NANOSECONDS: u128 = 1_000_000_000;

/// Limits a timestamp in nanoseconds to the greatest one.
fn capped(nanoseconds: u128) -> u64
    ensures { result ≡ min nanoseconds max_rank }
{
    nanoseconds.min(u128::from(MAX_RANK)) as u64
}

/// Returns how many of the units a second has, if that fits in 128 bits.
fn units_in(unit: Unit) -> Option<u128>
    ensures { SomeIff result (Moment.units_a_second unit < 2 ^ 128) (Moment.units_a_second unit) }
{
    match unit {
        Unit::Decimal(v) => 10u128.checked_pow(u32::from(v)),
        Unit::Binary(v) => 2u128.checked_pow(u32::from(v)),
    }
}

/// Returns the timestamp in nanoseconds of this many units, rounded down and limited to the
/// greatest one.
pub fn moment_in(unit: Unit, time: u64) -> u64
    ensures { result ≡ Moment.moment_in unit time }
{
    let product = u128::from(time) * NANOSECONDS;
    match units_in(unit) {
        Some(units) => capped(product / units),
        None => 0,
    }
}
