//! The kinds of rejected input in a report, and failed writes.
ghost use Rattle.std.specs.Prelude.{◌≡◌};
ghost use Rattle.outside_core.specs.declared.stop.Stop.TheVariants.{Sink};
ghost use Rattle.report_core.specs.Faults.{word_of};

use outside_core::{SinkError, Stop};

/// The kind of the rejected input.
#[derive(Clone, Copy, Debug, PartialEq, Eq)]
pub enum FaultKind {
    Words,
    Policy,
    Target,
    Size,
    Script,
    Capture,
    Tree,
    Map,
}

impl FaultKind {
    /// Returns the word that a report shows.
    pub fn word(self) -> &'static str
        ensures { result.now ≡ word_of self }
    {
        match self {
            FaultKind::Words => "words",
            FaultKind::Policy => "policy",
            FaultKind::Target => "target",
            FaultKind::Size => "size",
            FaultKind::Script => "script",
            FaultKind::Capture => "capture",
            FaultKind::Tree => "tree",
            FaultKind::Map => "map",
        }
    }
}

/// A write to the sink failed.
#[derive(Clone, Copy, Debug, PartialEq, Eq)]
pub struct WriteFault;

impl From<SinkError> for WriteFault {
    fn from(_error: SinkError) -> WriteFault {
        WriteFault
    }
}

impl From<WriteFault> for Stop {
    ghost from_gives = { λ _ stop. stop ≡ Sink };

    fn from(_fault: WriteFault) -> Stop {
        Stop::Sink
    }
}
