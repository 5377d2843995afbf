//! Why a file can't be read further.
ghost use Rattle.std.specs.Prelude.{◌≡◌};
ghost use Rattle.outside_core.specs.ReadErrors.{read_error};
ghost use Rattle.outside_core.specs.declared.read_error.ReadError.TheVariants.{Memory};

use crate::shelves::ShelfError;
use crate::stop::Stop;
use std::alloc::AllocError;

/// Why a file can't be read further.
#[derive(Clone, Copy, PartialEq, Eq, Debug)]
pub enum ReadError {
    /// The file has an error: its code, and the number of the record or block, or 0 for none.
    Fault(u32, u64),
    /// The file can't be read.
    Source,
    /// Out of memory.
    Memory,
}

impl From<ShelfError> for ReadError {
    ghost from_gives = { λ error e. e ≡ read_error error };

    fn from(error: ShelfError) -> ReadError {
        match error {
            ShelfError::Failed => ReadError::Source,
            ShelfError::NoMemory => ReadError::Memory,
        }
    }
}

impl From<AllocError> for ReadError {
    ghost from_gives = { λ _ e. e ≡ Memory };

    fn from(_error: AllocError) -> ReadError {
        ReadError::Memory
    }
}

impl ReadError {
    ghost use Rattle.std.specs.Prelude.{◌≡◌, Some, IfOk, IfErr};
    ghost use Rattle.outside_core.specs.ReadErrors.{stop_of};

    /// Returns the code and position of an error in the file. For any other error, returns why work
    /// stops.
    pub fn fault(self) -> Result<(u32, u64), Stop>
        ensures fault { IfOk result (λ at. self ≡ ReadError.Fault at.0 at.1) }
        ensures stop { IfErr result (λ stop. stop_of self ≡ Some stop) }
    {
        match self {
            ReadError::Fault(code, place) => Ok((code, place)),
            ReadError::Source => Err(Stop::Source),
            ReadError::Memory => Err(Stop::Memory),
        }
    }
}
