//! Reads pcapng captures of packets (draft-ietf-opsawg-pcapng) block by block from a shelf. Begin
//! with specs/Readers.antt.
#![tactic(auto)]

mod body;
mod capture;
mod carry;
mod fault;
mod moment;
mod options;
mod reader;
mod start;

pub use fault::NgFault;
pub use moment::moment_in;
pub use pcap_core::LinkedFrame as NgFrame;
pub use reader::NgReader;
