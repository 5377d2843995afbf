//! Reading input files, each in its format.
ghost use Rattle.std.specs.Prelude.{◌≡◌, ◌<◌, ◌^◌, ℕ, List, length, IfOk, IfSome, IsTrue};
ghost use Rattle.outside_core.specs.Kept.{KeepsShelf};
ghost use Rattle.report_core.specs.declared.fault.FaultKind.{FaultKind};
ghost use Rattle.replay_app.specs.Decided.{IsInput, IsOfKind, StopsReading};
ghost use Rattle.replay_app.specs.Follows.{IsRead};

use crate::not_run::NotRun;
use crate::refusal::Refusal;
use outside_core::{LoadError, Shelf, Stop, load};
use report_core::FaultKind;
use std::alloc::{AllocError, Global};

/// The limit of a file's size.
#[derive(Drop)]
pub struct Limit {
    /// The greatest size, in bytes.
    pub most: usize,
    /// The code with which a longer file is rejected. This error has no position.
    pub code: u32,
}

/// A format of input files.
pub trait Format {
    /// What a text in this format gives.
    type Input: Drop;

    /// The kind of a rejected input.
    ghost kind: { FaultKind };

    /// The codes and positions with which a text is rejected.
    ghost refused: { Self → List ℕ → ℕ → ℕ → Type 0 };

    /// The inputs that an accepted text gives.
    ghost gives: { Self → List ℕ → Self.Input → Type 0 };

    /// What parsing requires.
    ghost ready: { Self → Type 0 } = { λ _. Unit {0} };

    /// What holds of each accepted input.
    ghost sound: { Self → Self.Input → Type 0 } = { λ _ _. Unit {0} };

    /// Returns the kind of a rejected input.
    fn kind(&self) -> FaultKind
        ensures { result ≡ kind };

    /// Returns the limit of a file's size.
    fn limit(&self) -> Limit
        ensures short { result.most < 2 ^ 32 }
        ensures long { (text : List ℕ) → result.most < length text →
            refused self.now text result.code 0 };

    /// Parses a text, or returns why it is rejected. Fails if out of memory.
    fn parse(&self, alloc: Global, text: &[u8]) -> Result<Result<Self::Input, Refusal>, AllocError>
        requires { ready self.now }
        ensures read { IfOk result (IsRead (refused self.now text.now) (gives self.now text.now)) }
        ensures sound { IfOk result (λ read. IfOk read (sound self.now)) };
}

/// Reads an input file in this format. A file that is too long is rejected.
pub fn read_input<F: Format, S: Shelf>(
    alloc: Global,
    format: &F,
    shelf: &mut S,
    name: &str,
) -> Result<F::Input, NotRun>
    requires ready { F.ready format.now }
    requires lent { IsTrue (S.lends shelf.old name.now) }

    ensures read { IfSome (S.content shelf.old name.now) (λ text.
        IsInput (F.refused format.now text) (F.gives format.now text) result) }
    ensures sound { IfOk result (F.sound format.now) }
    ensures kind { IsOfKind F.kind result }
    ensures kept { KeepsShelf S.lends S.content S.faults shelf.old shelf.new }
    ensures cause { StopsReading result (S.faults shelf.old) (S.faults shelf.new) }
{
    let limit = format.limit();
    match load(alloc, shelf, name, limit.most) {
        Ok(text) => match format.parse(alloc, &text)? {
            Ok(input) => Ok(input),
            Err(cause) => Err(NotRun::rejected(format.kind(), cause)),
        },
        Err(LoadError::TooLong) => Err(NotRun::rejected(
            format.kind(),
            Refusal {
                code: limit.code,
                place: 0,
            },
        )),
        Err(LoadError::Failed) => Err(NotRun::Stopped(Stop::Source)),
        Err(LoadError::NoMemory) => Err(NotRun::Stopped(Stop::Memory)),
    }
}
