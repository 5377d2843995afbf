//! The reasons why parsed statements are rejected as a policy.
ghost use Rattle.std.specs.Prelude.{◌≡◌};
ghost use Rattle.policy_rules.specs.declared.fault.PolicyFault.TheVariants.{NoMemory};
ghost use Rattle.policy_rules.specs.Codes.{code_of, line_of};

use std::alloc::AllocError;

/// The reason why parsed statements are rejected as a policy. The number is that of the first line
/// in error.
#[derive(Clone, Copy, PartialEq, Eq, Debug)]
pub enum PolicyFault {
    /// The first statement isn't `policy`, a later one is, or a line of a transaction is out of
    /// order.
    Misplaced(u32),
    /// A name is already declared on an earlier line, or a transaction has the name of a built-in
    /// one.
    Twice(u32),
    /// A transaction, child, class or variable is used but not declared.
    Unknown(u32),
    /// The line is the first beyond a limit: 256 classes, 1,024 nodes and leaves, 64 transactions,
    /// and in each transaction 16 variables and 64 assignments.
    TooMany(u32),
    /// Types don't agree, or the value that is assigned isn't a number.
    TypeClash(u32),
    /// An expression may have a value beyond 2^100 or below -2^100.
    Wide(u32),
    /// A divisor may be 0.
    DivZero(u32),
    /// A node or leaf other than `root` isn't listed as a child exactly once.
    Parents(u32),
    /// No node or leaf is named `root`.
    NoRoot,
    /// A node is among its own descendants.
    Cycle(u32),
    /// A node or leaf has more than 64 levels above it.
    Deep(u32),
    /// A class isn't listed by leaves exactly once.
    ClassLeaf(u32),
    /// The last class has a condition, or there is no class.
    NoCatchAll,
    /// A leaf has a limit, but the policy is of version 1, which has no limits.
    OldVersion(u32),
    NoMemory,
}

impl From<AllocError> for PolicyFault {
    ghost use Rattle.std.specs.Prelude.{◌≡◌};
    ghost use Rattle.policy_rules.specs.declared.fault.PolicyFault.TheVariants.{NoMemory};

    ghost from_gives = { λ _ fault. fault ≡ NoMemory };

    fn from(_error: AllocError) -> PolicyFault {
        PolicyFault::NoMemory
    }
}

impl PolicyFault {
    /// Returns the number of the clause that fails, from 1 to 14, or 0 for `NoMemory`.
    pub fn code(self) -> u32
        ensures { result ≡ code_of self }
    {
        match self {
            PolicyFault::Misplaced(_) => 1,
            PolicyFault::Twice(_) => 2,
            PolicyFault::Unknown(_) => 3,
            PolicyFault::TooMany(_) => 4,
            PolicyFault::TypeClash(_) => 5,
            PolicyFault::Wide(_) => 6,
            PolicyFault::DivZero(_) => 7,
            PolicyFault::Parents(_) => 8,
            PolicyFault::NoRoot => 9,
            PolicyFault::Cycle(_) => 10,
            PolicyFault::Deep(_) => 11,
            PolicyFault::ClassLeaf(_) => 12,
            PolicyFault::NoCatchAll => 13,
            PolicyFault::OldVersion(_) => 14,
            PolicyFault::NoMemory => 0,
        }
    }

    /// Returns the number of the line in error, or 0 if no single line is.
    pub fn line(self) -> u32
        ensures { result ≡ line_of self }
    {
        match self {
            PolicyFault::Misplaced(line)
            | PolicyFault::Twice(line)
            | PolicyFault::Unknown(line)
            | PolicyFault::TooMany(line)
            | PolicyFault::TypeClash(line)
            | PolicyFault::Wide(line)
            | PolicyFault::DivZero(line)
            | PolicyFault::Parents(line)
            | PolicyFault::Cycle(line)
            | PolicyFault::Deep(line)
            | PolicyFault::ClassLeaf(line)
            | PolicyFault::OldVersion(line) => line,
            PolicyFault::NoRoot | PolicyFault::NoCatchAll | PolicyFault::NoMemory => 0,
        }
    }
}
