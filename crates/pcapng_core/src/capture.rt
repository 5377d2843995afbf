//! The reader of pcapng captures, as one for captures of any format.
ghost use Rattle.std.specs.Prelude.{◌≡◌};
ghost use Rattle.pcapng_core.specs.Faults.{read_error_as};

use crate::fault::NgFault;
use crate::reader::NgReader;
use outside_core::{ReadError, Shelf};
use pcap_core::{CaptureReader, LinkedFrame, Window};
use std::alloc::Global;

/// Converts an error of this reader to the error type shared by all capture formats.
fn read_error(fault: NgFault) -> ReadError
    ensures { result ≡ read_error_as fault }
{
    match fault {
        NgFault::ReadFault => ReadError::Source,
        NgFault::NoMemory => ReadError::Memory,
        _ => ReadError::Fault(fault.code(), fault.place()),
    }
}

impl CaptureReader for NgReader {
    ghost use Rattle.std.specs.Prelude.{IsTrue};
    ghost use Rattle.pcapng_defs.specs.NgContents.{in_ng_capture};
    ghost use Rattle.pcapng_core.specs.Readers.{is_live, packets_given, bytes_held, captured_of, IsFresh};
    ghost use Rattle.pcapng_core.specs.Left.{contents_left};

    ghost contents = { in_ng_capture };

    ghost left = { contents_left };

    ghost given = { packets_given };

    ghost is_live = { is_live };

    ghost ahead = { bytes_held };

    ghost captured_of = { captured_of };

    ghost fresh = { IsFresh };

    ghost ready = { λ r. IsTrue (is_live r) };

    fn over(alloc: Global, window: Window) -> NgReader {
        NgReader::over(alloc, window)
    }

    fn live(&self) -> bool {
        NgReader::live(self)
    }

    fn start<S: Shelf>(&mut self, shelf: &mut S) -> Result<(), ReadError> {
        match NgReader::start(self, shelf) {
            Ok(()) => Ok(()),
            Err(fault) => Err(read_error(fault)),
        }
    }

    fn next_in_place<S: Shelf>(
        &mut self,
        shelf: &mut S,
        into: &mut Vec<u8>,
    ) -> Result<Option<LinkedFrame>, ReadError> {
        match NgReader::next(self, shelf, into) {
            Ok(given) => Ok(given),
            Err(fault) => Err(read_error(fault)),
        }
    }

    #[inline(always)]
    fn captured<'b>(&'b self, copied: &'b [u8]) -> &'b [u8] {
        copied
    }

    fn pass<S: Shelf>(&mut self, shelf: &mut S, scratch: &mut Vec<u8>) -> Result<bool, ReadError> {
        match NgReader::next(self, shelf, scratch) {
            Ok(given) => Ok(given.is_some()),
            Err(fault) => Err(read_error(fault)),
        }
    }
}
