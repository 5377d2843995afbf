//! The trait of named files to read.
ghost use Rattle.std.specs.Prelude.{◌≡◌, ◌<◌, ◌≤◌, ℕ, List, Bool, Option, length, IfOk, OnOk, OnErr, IsTrue, IsFalse, IsErrOf};
ghost use Rattle.outside_core.specs.Faults.{Rose};
ghost use Rattle.outside_core.specs.Files.{KeepsFiles, Takes, EndsWhereEmpty};
ghost use Rattle.outside_core.specs.declared.shelves.ShelfError.TheVariants.{NoMemory};

use std::alloc::AllocError;

#[derive(Clone, Copy, Debug, PartialEq, Eq)]
pub enum ShelfError {
    /// A fault occurred, and was counted.
    Failed,
    /// Out of memory for the call.
    NoMemory,
}

impl From<AllocError> for ShelfError {
    ghost from_gives = { λ _ error. error ≡ NoMemory };

    fn from(_error: AllocError) -> ShelfError {
        ShelfError::NoMemory
    }
}

/// A set of named files, one of which is open at a time.
pub trait Shelf {
    /// Whether a name may be opened.
    ghost lends: { Self → List ℕ → Bool };

    /// The content of a name, if it is known to the contract.
    ghost content: { Self → List ℕ → Option (List ℕ) };

    /// Whether a file is open.
    ghost begun: { Self → Bool };

    /// The unread bytes of the open file, if they are known to the contract.
    ghost left: { Self → Option (List ℕ) };

    /// The number of faults so far, in 64 bits; it stays at the last value.
    ghost faults: { Self → ℕ };

    /// Opens a file, and closes the previous one.
    fn begin(&mut self, name: &str) -> Result<(), ShelfError>
        requires lent { IsTrue (lends self.old name.now) }

        ensures begun { OnOk result (IsTrue (begun self.new)) }
        ensures whole { OnOk result (left self.new ≡ content self.old name.now) }
        ensures refused { OnErr result (IsFalse (begun self.new)) }

        ensures files { KeepsFiles lends content self.old self.new }
        ensures later { faults self.old ≤ faults self.new }
        ensures cause { IsErrOf result ShelfError.Failed → Rose (faults self.old)
            (faults self.new) };

    /// Reads the next bytes of the open file into the front of the buffer, and returns how many.
    fn read(&mut self, buf: &mut [u8]) -> Result<usize, ShelfError>
        requires started { IsTrue (begun self.old) }

        ensures bound { IfOk result (λ n. n ≤ length buf.old) }
        ensures taken { IfOk result (λ n. Takes (left self.old) (left self.new) buf.new n) }
        ensures end { IfOk result (λ n. 0 < length buf.old → EndsWhereEmpty (left self.old) n) }
        ensures refused { OnErr result (left self.new ≡ left self.old) }
        ensures no_memory_never { IsErrOf result ShelfError.NoMemory → ⊥ }

        ensures begun { IsTrue (begun self.new) }
        ensures files { KeepsFiles lends content self.old self.new }
        ensures later { faults self.old ≤ faults self.new }
        ensures cause { IsErrOf result ShelfError.Failed → Rose (faults self.old)
            (faults self.new) };
}
