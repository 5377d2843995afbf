//! Sums of a run for each leaf and each class, and their text. Begin with specs/Counting.antt.
#![tactic(auto)]

mod counts;
mod delays;
mod event;
mod fairness;
mod group;
mod groups;
mod json;
mod laws;
mod numbers;
mod part;
mod recorder;
mod summary;
mod table;
mod text;
mod timestamps;
mod totals;

pub use counts::Counts;
pub use delays::Delays;
pub use event::{PacketEvent, Times};
pub use fairness::{Fairness, fairness_of};
pub use group::{Figures, Group, Groups, Label};
pub use groups::groups_of;
pub use json::put_json;
pub use laws::{
    delays_are_those_of_the_departures, groups_are_determined, groups_are_of_the_run,
    kept_timestamps_are_those_of_the_packets,
};
pub use part::Part;
pub use summary::Summary;
pub use text::put_text;
