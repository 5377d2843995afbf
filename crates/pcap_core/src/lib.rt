//! Packet captures (libpcap 2.4): read record by record from a shelf, and written. Also what readers of
//! all formats share: their trait, a window of bytes that were read but not consumed, and numbers in
//! either byte order. Begin with specs/Captures.antt.
#![tactic(auto)]

mod capture_reader;
mod fault;
mod frame;
mod header;
mod laws;
mod reader;
mod window;
mod writing;

pub use capture_reader::CaptureReader;
pub use fault::CaptureFault;
pub use frame::{Frame, LinkedFrame};
pub use header::{HEADER_LEN, is_newer, read_long, read_short};
pub use laws::{
    a_written_capture_is_read_back, a_written_moment_is_read_back, bytes_of_more_records_follow,
};
pub use pcap_defs::Head;
pub use reader::Reader;
pub use window::Window;
pub use writing::{put_head, put_record, record_front};
