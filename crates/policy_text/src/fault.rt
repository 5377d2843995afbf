//! The errors of policy texts.
ghost use Rattle.std.specs.Prelude.{◌≡◌};
ghost use Rattle.policy_text.specs.Codes.{code_of, line_of};

use std::alloc::{AllocError, AllocFailed};

/// The reason why a text is rejected. The number is that of the line in error, counted from 1.
#[derive(Debug, Drop)]
pub enum TextFault {
    /// The text has more than 1,048,576 bytes.
    TooLong,
    /// The line has bytes that aren't text.
    NotText(u32),
    /// The line is malformed: it isn't a statement.
    Syntax(u32),
    /// The line asks for a shaping transaction.
    Shaping(u32),
    NoMemory,
}

impl TextFault {
    /// Returns the number of the error in a report; 0 if memory ran out.
    pub fn code(&self) -> u32
        ensures { result ≡ code_of self.now }
    {
        match self {
            TextFault::TooLong => 21,
            TextFault::NotText(_) => 22,
            TextFault::Syntax(_) => 23,
            TextFault::Shaping(_) => 24,
            TextFault::NoMemory => 0,
        }
    }

    /// Returns the number of the line in error, or 0 if no single line is.
    pub fn line(&self) -> u32
        ensures { result ≡ line_of self.now }
    {
        match self {
            TextFault::NotText(line) | TextFault::Syntax(line) | TextFault::Shaping(line) => *line,
            TextFault::TooLong | TextFault::NoMemory => 0,
        }
    }
}

impl From<AllocError> for TextFault {
    ghost use Rattle.std.specs.Prelude.{◌≡◌};
    ghost use Rattle.policy_text.specs.declared.fault.TextFault.TheVariants.{NoMemory};

    ghost from_gives = { λ _ e. e ≡ NoMemory };

    fn from(_: AllocError) -> Self {
        TextFault::NoMemory
    }
}

impl<T: Drop> From<AllocFailed<T>> for TextFault {
    ghost use Rattle.std.specs.Prelude.{◌≡◌};
    ghost use Rattle.policy_text.specs.declared.fault.TextFault.TheVariants.{NoMemory};

    ghost from_gives = { λ _ e. e ≡ NoMemory };

    fn from(_: AllocFailed<T>) -> Self {
        TextFault::NoMemory
    }
}
