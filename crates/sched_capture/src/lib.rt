//! Reads the packets of a classic or pcapng capture one by one, each with its own link type, its flow,
//! and the class that a policy gives it. Runs a script or a link over them, through a policy's own tree
//! of queues or through a fabric, and writes the whole report or the departures. Also runs a generated
//! load. Begin with specs/CapturePackets.antt and specs/Answers.antt.
#![tactic(auto)]

mod capture;
mod capture_packets;
mod course;
mod departures;
mod fabric;
mod forwarding;
mod laid;
mod laws;
mod load;
mod single_link_type;
mod task;

pub use capture::{begin, direct, direct_run};
pub use capture_packets::{Arrivals, CapturePackets};
pub use course::run_over;
pub use departures::{ForwardEnding, forward, forward_own};
pub use fabric::{replay, run_through};
pub use forwarding::Forwarding;
pub use laid::LaidPolicy;
pub use laws::{alike_files_have_equal_answers, forwards_are_read_back};
pub use load::{LoadCounts, LoadSize, soak};
pub use outside_core::Stop;
pub use sched_defs::{Ending, Packets};
pub use single_link_type::{OTHER_LINK, SingleLinkType};
pub use task::Task;
