//! Reading a whole file, up to a limit.
ghost use Rattle.std.specs.Prelude.{◌≡◌, ◌+◌, ◌^◌, ◌<◌, ◌≤◌, length, drop, vec_len, [], Some, IfOk, IfSome, OnOk, IsTrue, IsErrOf};
ghost use Rattle.outside_core.specs.Faults.{Rose};
ghost use Rattle.outside_core.specs.Kept.{KeepsShelf};
ghost use Rattle.outside_core.specs.Loading.{load_error};
ghost use Rattle.outside_core.specs.declared.loading.LoadError.TheVariants.{NoMemory};

use crate::shelves::{Shelf, ShelfError};
use std::alloc::{AllocError, Global};

#[derive(Clone, Copy, Debug, PartialEq, Eq)]
pub enum LoadError {
    /// The shelf met a fault, and counted it.
    Failed,
    /// The content is longer than the limit that the caller gave.
    TooLong,
    /// Out of memory for the content.
    NoMemory,
}

impl From<ShelfError> for LoadError {
    ghost from_gives = { λ error e. e ≡ load_error error };

    fn from(error: ShelfError) -> LoadError {
        match error {
            ShelfError::Failed => LoadError::Failed,
            ShelfError::NoMemory => LoadError::NoMemory,
        }
    }
}

impl From<AllocError> for LoadError {
    ghost from_gives = { λ _ e. e ≡ NoMemory };

    fn from(_error: AllocError) -> LoadError {
        LoadError::NoMemory
    }
}

/// The greatest size of one read, in bytes.
const CHUNK: usize = 4096;

/// Returns the whole content of a name that may be opened, if it has at most `most` bytes.
pub fn load<S: Shelf>(
    alloc: Global,
    shelf: &mut S,
    name: &str,
    most: usize,
) -> Result<Vec<u8>, LoadError>
    requires lent { IsTrue (S.lends shelf.old name.now) }
    requires short { most < 2 ^ 32 }

    ensures whole { IfOk result (λ v. IfSome (S.content shelf.old name.now) (λ bytes. v.items ≡
        bytes)) }
    ensures bound { IfOk result (λ v. vec_len v ≤ most) }
    ensures end { OnOk result (IfSome (S.content shelf.old name.now) (λ _. S.left shelf.new ≡
        Some [])) }

    ensures too_long { IsErrOf result LoadError.TooLong → IfSome (S.content shelf.old name.now)
        (λ bytes. most < length bytes) }

    // `most` + 1 bytes were read.
    ensures read { IsErrOf result LoadError.TooLong → IfSome (S.content shelf.old name.now)
        (λ bytes.
        S.left shelf.new ≡ Some (drop (most + 1) bytes)) }

    ensures kept { KeepsShelf S.lends S.content S.faults shelf.old shelf.new }
    ensures cause { IsErrOf result LoadError.Failed → Rose (S.faults shelf.old)
        (S.faults shelf.new) }
{
    shelf.begin(name)?;
    let mut text = Vec::new(alloc);
    let mut chunk = [0; CHUNK];
    while text.len() <= most {
        let room = chunk.len().min(most + 1 - text.len());
        let count = shelf.read(&mut chunk[..room])?;
        if count == 0 {
            return Ok(text);
        }
        text.extend_from_slice(&chunk[..count])?;
    }
    Err(LoadError::TooLong)
}
