//! The errors of reading a capture.
ghost use Rattle.std.specs.Prelude.{◌≡◌};
ghost use Rattle.pcap_core.specs.Faults.{code_in, place_in, shelf_fault};

use outside_core::ShelfError;

/// The reason why the reading of a capture stopped. A number is that of the record at fault,
/// counted from 1.
#[derive(Clone, Copy, PartialEq, Eq, Debug)]
pub enum CaptureFault {
    /// The file is shorter than a file header.
    HeaderCut,
    /// The file doesn't begin with the magic number of a capture.
    BadMagic,
    /// The file is a capture in the newer format pcapng.
    PcapNg,
    /// The major version isn't 2.
    Version,
    /// The file ends inside the sixteen bytes before a record's captured bytes.
    RecordCut(u64),
    /// The file ends inside a record's captured bytes.
    DataCut(u64),
    /// A record's captured length is above 262,144 bytes.
    RecordLong(u64),
    /// Bytes follow the last record that a capture may have, the 4,294,967,295th.
    TooMany,
    /// The shelf failed to read.
    ReadFault,
    /// Out of memory for the bytes to be read.
    NoMemory,
}

impl CaptureFault {
    /// Returns the fault's code in a report, or 0 if the file isn't at fault.
    pub fn code(&self) -> u32
        ensures { result ≡ code_in self.now }
    {
        match self {
            CaptureFault::HeaderCut => 1,
            CaptureFault::BadMagic => 2,
            CaptureFault::PcapNg => 3,
            CaptureFault::Version => 4,
            CaptureFault::RecordCut(_) => 5,
            CaptureFault::DataCut(_) => 6,
            CaptureFault::RecordLong(_) => 7,
            CaptureFault::TooMany => 8,
            CaptureFault::ReadFault | CaptureFault::NoMemory => 0,
        }
    }

    /// Returns the number of the record at fault, or 0 if there is none.
    pub fn place(&self) -> u64
        ensures { result ≡ place_in self.now }
    {
        match self {
            CaptureFault::RecordCut(number)
            | CaptureFault::DataCut(number)
            | CaptureFault::RecordLong(number) => *number,
            _ => 0,
        }
    }
}

impl From<ShelfError> for CaptureFault {
    ghost from_gives = { λ error e. e ≡ shelf_fault error };

    fn from(error: ShelfError) -> CaptureFault {
        match error {
            ShelfError::Failed => CaptureFault::ReadFault,
            ShelfError::NoMemory => CaptureFault::NoMemory,
        }
    }
}
