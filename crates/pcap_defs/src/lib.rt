//! Defines a packet capture: the classic file format of libpcap, version 2.4. Begin with
//! specs/Capture.antt.
#![tactic(auto)]

mod head;
mod laws;
mod limits;

pub use head::Head;
pub use laws::{a_file_has_one_reading, a_moment_has_62_bits, a_rest_has_a_record_or_a_fault};
pub use limits::MOST_CAPTURED;
