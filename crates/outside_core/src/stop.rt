//! Why work that reads a source and writes a sink stops.
ghost use Rattle.std.specs.Prelude.{◌≡◌};
ghost use Rattle.outside_core.specs.declared.stop.Stop.TheVariants.{Memory};

use std::alloc::AllocError;

/// Why work that reads a source and writes a sink stops before its end.
#[derive(Clone, Copy, PartialEq, Eq, Debug)]
pub enum Stop {
    /// The source can't be read.
    Source,
    /// The sink can't be written.
    Sink,
    /// Out of memory.
    Memory,
}

impl From<AllocError> for Stop {
    ghost from_gives = { λ _ stop. stop ≡ Memory };

    fn from(_error: AllocError) -> Stop {
        Stop::Memory
    }
}
