//! Defines a pcapng capture of packets (draft-ietf-opsawg-pcapng). Begin with specs/NgCapture.antt.
#![tactic(auto)]

mod interface;
mod laws;
mod limits;

pub use interface::{Interface, Unit};
pub use laws::{
    a_file_goes_block_by_block, a_file_goes_on_behind_whole_blocks, a_front_tells_the_format,
    alike_files_hold_the_same, blocks_are_whole, faults_are_numbered, faults_have_causes,
    packets_are_bounded, packets_are_few, units_go_option_by_option, whole_blocks_stand,
};
pub use limits::{MOST_INTERFACES, MOST_TOTAL};
