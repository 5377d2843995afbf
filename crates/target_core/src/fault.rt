//! Errors in a target's text.
ghost use Rattle.std.specs.Prelude.{◌≡◌};
ghost use Rattle.target_core.specs.Codes.{code_of};

use std::alloc::{AllocError, AllocFailed};

/// Says why a target's text is rejected. The report shows the number.
#[derive(Debug, Drop)]
pub enum TargetFault {
    /// 1: the bytes aren't a TOML document.
    NotToml,
    /// 2: the keys aren't exactly `arity` and `height`, or `arities` alone, or a value is out of
    /// its range.
    Key,
    /// 3: the tree has more than 65,536 leaves.
    Large,
    /// 4: the text has more than 65,536 bytes.
    TooLong,
    NoMemory,
}

impl TargetFault {
    /// Returns the number that the report shows. The number for out of memory (0) is never shown.
    pub fn code(&self) -> u32
        ensures { result ≡ code_of self.now }
    {
        match self {
            TargetFault::NotToml => 1,
            TargetFault::Key => 2,
            TargetFault::Large => 3,
            TargetFault::TooLong => 4,
            TargetFault::NoMemory => 0,
        }
    }
}

impl From<AllocError> for TargetFault {
    ghost use Rattle.std.specs.Prelude.{◌≡◌};
    ghost use Rattle.target_core.specs.declared.fault.TargetFault.TheVariants.{NoMemory};

    ghost from_gives = { λ _ e. e ≡ NoMemory };

    fn from(_: AllocError) -> Self {
        TargetFault::NoMemory
    }
}

impl<T: Drop> From<AllocFailed<T>> for TargetFault {
    ghost use Rattle.std.specs.Prelude.{◌≡◌};
    ghost use Rattle.target_core.specs.declared.fault.TargetFault.TheVariants.{NoMemory};

    ghost from_gives = { λ _ e. e ≡ NoMemory };

    fn from(_: AllocFailed<T>) -> Self {
        TargetFault::NoMemory
    }
}
