//! Why a line isn't accepted.
use crate::token::TokenFault;
use std::alloc::{AllocError, AllocFailed};

/// Why a line isn't accepted.
#[derive(Debug, Drop)]
pub enum Refusal {
    /// The line is malformed.
    NoForm,
    NoMemory,
}

impl From<AllocError> for Refusal {
    ghost use Rattle.std.specs.Prelude.{◌≡◌};
    ghost use Rattle.text_core.specs.declared.refusal.Refusal.TheVariants.{NoMemory};

    ghost from_gives = { λ _ e. e ≡ NoMemory };

    fn from(_: AllocError) -> Self {
        Refusal::NoMemory
    }
}

impl<T: Drop> From<AllocFailed<T>> for Refusal {
    ghost use Rattle.std.specs.Prelude.{◌≡◌};
    ghost use Rattle.text_core.specs.declared.refusal.Refusal.TheVariants.{NoMemory};

    ghost from_gives = { λ _ e. e ≡ NoMemory };

    fn from(_: AllocFailed<T>) -> Self {
        Refusal::NoMemory
    }
}

impl From<TokenFault> for Refusal {
    ghost use Rattle.std.specs.Prelude.{◌≡◌};
    ghost use Rattle.text_core.specs.Refusals.{refusal_of};

    ghost from_gives = { λ fault e. e ≡ refusal_of fault };

    fn from(fault: TokenFault) -> Self {
        match fault {
            TokenFault::Bad(_) => Refusal::NoForm,
            TokenFault::NoMemory => Refusal::NoMemory,
        }
    }
}
