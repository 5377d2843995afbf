//! Why a command doesn't run.
ghost use Rattle.std.specs.Prelude.{◌≡◌};
ghost use Rattle.outside_core.specs.declared.stop.Stop.TheVariants.{Memory};
ghost use Rattle.replay_app.specs.declared.not_run.NotRun.TheVariants.{Stopped};

use crate::refusal::Refusal;
use outside_core::Stop;
use report_core::FaultKind;
use std::alloc::AllocError;

/// An input that is rejected.
#[derive(Drop)]
pub struct Rejection {
    pub kind: FaultKind,
    pub cause: Refusal,
    /// What is written before the line of the error, if anything.
    pub before: Option<Vec<u8>>,
}

/// Why a command doesn't run.
#[derive(Drop)]
pub enum NotRun {
    /// An input is rejected.
    Rejected(Rejection),
    /// A file can't be read, or memory ran out.
    Stopped(Stop),
}

impl NotRun {
    ghost use Rattle.std.specs.Prelude.{None};
    ghost use Rattle.replay_app.specs.declared.not_run.NotRun.TheVariants.{Rejected};

    /// Returns that an input is rejected. Nothing is written before the line of the error.
    pub fn rejected(kind: FaultKind, cause: Refusal) -> NotRun
        ensures { result ≡ Rejected (record { kind = kind; cause = cause; before = None }) }
    {
        NotRun::Rejected(Rejection {
            kind,
            cause,
            before: None,
        })
    }
}

impl From<Stop> for NotRun {
    ghost from_gives = { λ stop not_run. not_run ≡ Stopped stop };

    fn from(stop: Stop) -> NotRun {
        NotRun::Stopped(stop)
    }
}

impl From<AllocError> for NotRun {
    ghost from_gives = { λ _ not_run. not_run ≡ Stopped Memory };

    fn from(_error: AllocError) -> NotRun {
        NotRun::Stopped(Stop::Memory)
    }
}
