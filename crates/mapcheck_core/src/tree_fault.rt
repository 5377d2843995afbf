//! Errors of a tree's text.
ghost use Rattle.std.specs.Prelude.{◌≡◌};
ghost use Rattle.mapcheck_core.specs.TreeTexts.{code_of, place_of};

use std::alloc::{AllocError, AllocFailed};

/// Says why a text isn't a tree. Lines are counted from 1.
#[derive(Clone, Copy, PartialEq, Eq, Debug)]
pub enum TreeFault {
    /// The text has more than `MOST_TREE_BYTES` bytes.
    TooLong,
    /// This line is malformed, or is the second with a tree. It is 0 if no line has a tree.
    Line(u32),
    /// The tree of this line has more than 1,024 nodes or 64 levels.
    Large(u32),
    NoMemory,
}

impl TreeFault {
    /// Returns the error's number in a report, or 0 if out of memory.
    pub fn code(&self) -> u32
        ensures { result ≡ code_of self.now }
    {
        match self {
            TreeFault::TooLong => 1,
            TreeFault::Line(_) => 2,
            TreeFault::Large(_) => 3,
            TreeFault::NoMemory => 0,
        }
    }

    /// Returns the number of the line with the error, or 0 if there is none.
    pub fn place(&self) -> u32
        ensures { result ≡ place_of self.now }
    {
        match self {
            TreeFault::Line(line) | TreeFault::Large(line) => *line,
            TreeFault::TooLong | TreeFault::NoMemory => 0,
        }
    }
}

impl From<AllocError> for TreeFault {
    ghost use Rattle.std.specs.Prelude.{◌≡◌};
    ghost use Rattle.mapcheck_core.specs.declared.tree_fault.TreeFault.TheVariants.{NoMemory};

    ghost from_gives = { λ _ e. e ≡ NoMemory };

    fn from(_: AllocError) -> Self {
        TreeFault::NoMemory
    }
}

impl<T: Drop> From<AllocFailed<T>> for TreeFault {
    ghost use Rattle.std.specs.Prelude.{◌≡◌};
    ghost use Rattle.mapcheck_core.specs.declared.tree_fault.TreeFault.TheVariants.{NoMemory};

    ghost from_gives = { λ _ e. e ≡ NoMemory };

    fn from(_: AllocFailed<T>) -> Self {
        TreeFault::NoMemory
    }
}
