//! The trait of readers of captures.
ghost use Rattle.std.specs.Prelude.{◌≡◌, ◌≤◌, ◌+◌, ◌↔◌, ℕ, Bool, true, List, Option, is_some, if◌then◌else◌, IfOk, IfErr, OnOk, IfSome, IsErrOf, IsOk, IsTrue};
ghost use Rattle.outside_core.specs.Faults.{Rose};
ghost use Rattle.pcap_defs.specs.Record.{most_records};
ghost use Rattle.pcap_defs.specs.Contents.{Contents, FileContents, no_capture};
ghost use Rattle.pcap_core.specs.Held.{held};
ghost use Rattle.pcap_core.specs.Rest.{rest_of, Serves};
ghost use Rattle.pcap_core.specs.Captures.{fault_told, Opens, Reads, Skips};

use crate::frame::LinkedFrame;
use crate::window::Window;
use outside_core::{ReadError, Shelf};
use std::alloc::Global;

/// Reads a capture packet by packet, in any capture format.
pub trait CaptureReader {
    /// The contents of a file in this reader's format.
    ghost contents: { List ℕ → FileContents };

    /// The contents that are left, if the rest of the file is known to the contract.
    ghost left: { Self → Option (List ℕ) → Option Contents };

    /// The number of packets returned or skipped.
    ghost given: { Self → ℕ };

    /// No call has returned an error.
    ghost is_live: { Self → Bool };

    /// The bytes that were read but not consumed.
    ghost ahead: { Self → List ℕ };

    /// The captured bytes of the packet that the last call of `next_in_place` read, where its
    /// buffer has these contents.
    ghost captured_of: { Self → List ℕ → List ℕ };

    /// Nothing was consumed.
    ghost fresh: { Self → Type 0 };

    /// The beginning was read, and no call has returned an error.
    ghost ready: { Self → Type 0 };

    /// Returns a reader of a window's bytes and then of the rest of the open file.
    fn over(alloc: Global, window: Window) -> Self
        ensures fresh { fresh result }
        ensures ahead { ahead result ≡ held window };

    /// Returns whether no call has returned an error.
    fn live(&self) -> bool
        ensures { result ≡ is_live self.now };

    /// Reads the beginning of the file: from the bytes already read, and then from the rest of the
    /// open file.
    fn start<S: Shelf>(&mut self, shelf: &mut S) -> Result<(), ReadError>
        requires fresh { fresh self.old }
        requires begun { IsTrue (S.begun shelf.old) }

        ensures opens { OnOk result (IfSome (rest_of (ahead self.old) (S.left shelf.old)) (λ file.
            Opens (contents file) (left self.new (S.left shelf.new)))) }
        ensures refused { IfErr result (λ e. IfSome (fault_told e) (λ fault.
            IfSome (rest_of (ahead self.old) (S.left shelf.old)) (λ file.
            contents file ≡ no_capture fault))) }
        ensures none_given { given self.new ≡ 0 }
        ensures ready { OnOk result (ready self.new) }
        ensures live { IsTrue (is_live self.new) ↔ IsOk result }

        ensures shelf { Serves S.lends S.content S.begun S.faults shelf.old shelf.new }
        ensures cause { IsErrOf result ReadError.Source → Rose (S.faults shelf.old)
            (S.faults shelf.new) };

    /// Reads the next packet. `captured` returns its captured bytes, if it is given the contents of
    /// `into` as they are after the call.
    fn next_in_place<S: Shelf>(
        &mut self,
        shelf: &mut S,
        into: &mut Vec<u8>,
    ) -> Result<Option<LinkedFrame>, ReadError>
        requires ready { ready self.old }
        requires begun { IsTrue (S.begun shelf.old) }

        ensures reads { Reads result (left self.old (S.left shelf.old))
            (left self.new (S.left shelf.new)) (given self.old) (captured_of self.new into.new.items) }
        ensures given { IfOk result (λ o. given self.new ≡ given self.old +
            (if is_some o then 1 else 0)) }
        ensures ready { OnOk result (ready self.new) }
        ensures live { IsTrue (is_live self.new) ↔ IsOk result }

        ensures shelf { Serves S.lends S.content S.begun S.faults shelf.old shelf.new }
        ensures cause { IsErrOf result ReadError.Source → Rose (S.faults shelf.old)
            (S.faults shelf.new) };

    /// Returns the captured bytes of the packet that the last call of `next_in_place` read. `copied`
    /// are the contents of the buffer that it was given.
    fn captured<'b>(&'b self, copied: &'b [u8]) -> &'b [u8]
        ensures { result.now ≡ captured_of self.now copied.now };

    /// Skips the next packet, and returns whether there was one. The contents of `scratch` are
    /// lost.
    fn pass<S: Shelf>(&mut self, shelf: &mut S, scratch: &mut Vec<u8>) -> Result<bool, ReadError>
        requires ready { ready self.old }
        requires begun { IsTrue (S.begun shelf.old) }

        ensures skips { Skips result (left self.old (S.left shelf.old))
            (left self.new (S.left shelf.new)) }
        ensures given { IfOk result (λ some. given self.new ≡ given self.old +
            (if some then 1 else 0)) }
        ensures few { IfOk result (λ some. some ≡ true → given self.new ≤ most_records) }
        ensures ready { OnOk result (ready self.new) }
        ensures live { IsTrue (is_live self.new) ↔ IsOk result }

        ensures shelf { Serves S.lends S.content S.begun S.faults shelf.old shelf.new }
        ensures cause { IsErrOf result ReadError.Source → Rose (S.faults shelf.old)
            (S.faults shelf.new) };
}
