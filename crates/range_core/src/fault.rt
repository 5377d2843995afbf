//! Errors of the checks.

use std::alloc::AllocError;

/// The reason why transactions are rejected, with the line number in the policy text if there is
/// one.
#[derive(Clone, Copy, PartialEq, Eq, Debug)]
pub enum RangeFault {
    /// Types don't agree, or an assigned value isn't a number.
    TypeClash(u32),
    /// The interval of a part goes above 2^100 or below -2^100.
    Wide(u32),
    /// The interval of a divisor contains 0.
    DivZero(u32),
    NoMemory,
}

impl From<AllocError> for RangeFault {
    ghost use Rattle.std.specs.Prelude.{◌≡◌};
    ghost use Rattle.range_core.specs.declared.fault.RangeFault.TheVariants.{NoMemory};

    ghost from_gives = { λ _ e. e ≡ NoMemory };

    fn from(_: AllocError) -> Self {
        RangeFault::NoMemory
    }
}
