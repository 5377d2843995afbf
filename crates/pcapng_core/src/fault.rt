//! The errors of reading a pcapng capture.
ghost use Rattle.std.specs.Prelude.{◌≡◌};
ghost use Rattle.pcapng_core.specs.Faults.{code_in, place_in, shelf_fault};
ghost use Rattle.pcapng_core.specs.declared.fault.NgFault.TheVariants.{NoMemory};

use outside_core::ShelfError;
use std::alloc::AllocError;

/// The reason why the reading of a pcapng capture stopped. A number is that of the block at fault,
/// counted from 1.
#[derive(Clone, Copy, PartialEq, Eq, Debug)]
pub enum NgFault {
    /// The file ends inside a block, or has no block.
    BlockCut(u64),
    /// No block of its type has this total length.
    BlockLength(u64),
    /// The first block isn't a section header, or a section header doesn't give the byte order.
    OrderMagic(u64),
    /// The major version of a section isn't 1.
    NgVersion(u64),
    /// A packet's interface isn't described in its section.
    NoInterface(u64),
    /// A packet captures more than 262,144 bytes, or more than its block holds.
    PacketLength(u64),
    /// The block describes the 1,025th interface of its section.
    Interfaces(u64),
    /// Bytes follow the last block that a capture may have, the 4,294,967,295th.
    TooManyBlocks(u64),
    /// The two total lengths of the block differ.
    BlockEnd(u64),
    /// The shelf failed to read.
    ReadFault,
    /// Out of memory for the bytes or the interfaces to be read.
    NoMemory,
}

impl NgFault {
    /// Returns the fault's code in a report, or 0 if the file isn't at fault.
    pub fn code(&self) -> u32
        ensures { result ≡ code_in self.now }
    {
        match self {
            NgFault::BlockCut(_) => 11,
            NgFault::BlockLength(_) => 12,
            NgFault::OrderMagic(_) => 13,
            NgFault::NgVersion(_) => 14,
            NgFault::NoInterface(_) => 15,
            NgFault::PacketLength(_) => 16,
            NgFault::Interfaces(_) => 17,
            NgFault::TooManyBlocks(_) => 18,
            NgFault::BlockEnd(_) => 19,
            NgFault::ReadFault | NgFault::NoMemory => 0,
        }
    }

    /// Returns the number of the block at fault, or 0 if there is none.
    pub fn place(&self) -> u64
        ensures { result ≡ place_in self.now }
    {
        match self {
            NgFault::BlockCut(number)
            | NgFault::BlockLength(number)
            | NgFault::OrderMagic(number)
            | NgFault::NgVersion(number)
            | NgFault::NoInterface(number)
            | NgFault::PacketLength(number)
            | NgFault::Interfaces(number)
            | NgFault::TooManyBlocks(number)
            | NgFault::BlockEnd(number) => *number,
            NgFault::ReadFault | NgFault::NoMemory => 0,
        }
    }
}

impl From<ShelfError> for NgFault {
    ghost from_gives = { λ error e. e ≡ shelf_fault error };

    fn from(error: ShelfError) -> NgFault {
        match error {
            ShelfError::Failed => NgFault::ReadFault,
            ShelfError::NoMemory => NgFault::NoMemory,
        }
    }
}

impl From<AllocError> for NgFault {
    ghost from_gives = { λ _ e. e ≡ NoMemory };

    fn from(_error: AllocError) -> NgFault {
        NgFault::NoMemory
    }
}
