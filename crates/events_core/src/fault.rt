//! Why a script is rejected.
ghost use Rattle.std.specs.Prelude.{◌≡◌};
ghost use Rattle.events_core.specs.Script.{code_of, place_of};

use std::alloc::{AllocError, AllocFailed};

/// Why a text isn't a script. Lines are counted from 1.
#[derive(Debug, Drop)]
pub enum ScriptFault {
    /// This line is malformed.
    Line(u32),
    /// At this line the sum of the counts exceeds `MOST_COUNT`.
    TooMany(u32),
    /// The text has more than `MOST_BYTES` bytes.
    TooLong,
    NoMemory,
}

impl ScriptFault {
    /// Returns the error code in a report; 0 for out of memory.
    pub fn code(&self) -> u32
        ensures { result ≡ code_of self.now }
    {
        match self {
            ScriptFault::Line(_) => 1,
            ScriptFault::TooMany(_) => 2,
            ScriptFault::TooLong => 4,
            ScriptFault::NoMemory => 0,
        }
    }

    /// Returns the number of the line with the error, or 0 if there is none.
    pub fn place(&self) -> u32
        ensures { result ≡ place_of self.now }
    {
        match self {
            ScriptFault::Line(line) | ScriptFault::TooMany(line) => *line,
            ScriptFault::TooLong | ScriptFault::NoMemory => 0,
        }
    }
}

impl From<AllocError> for ScriptFault {
    ghost use Rattle.std.specs.Prelude.{◌≡◌};
    ghost use Rattle.events_core.specs.declared.fault.ScriptFault.TheVariants.{NoMemory};

    ghost from_gives = { λ _ e. e ≡ NoMemory };

    fn from(_: AllocError) -> Self {
        ScriptFault::NoMemory
    }
}

impl<T: Drop> From<AllocFailed<T>> for ScriptFault {
    ghost use Rattle.std.specs.Prelude.{◌≡◌};
    ghost use Rattle.events_core.specs.declared.fault.ScriptFault.TheVariants.{NoMemory};

    ghost from_gives = { λ _ e. e ≡ NoMemory };

    fn from(_: AllocFailed<T>) -> Self {
        ScriptFault::NoMemory
    }
}
