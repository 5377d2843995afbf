//! The header fields, the flow and the class of a captured packet. Begin with
//! specs/Tests.antt.
#![tactic(auto)]

mod asks;
mod bounds;
mod classifier;
mod extra;
mod internet;
mod laws;
mod links;
mod prepared;
mod ranges;
mod rules;
mod tests;
mod unprepared;

pub use classifier::Classifier;
pub use extra::{no_extra, read_extra};
pub use internet::flow;
pub use laws::classic_classes_are_kept;
pub use links::{read_fields, read_fields_in};
pub use packet_defs::{Departed, ExtraFields, Fields, Header, Packet};
pub use unprepared::classify;
