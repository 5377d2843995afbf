//! Runs for people: a link or a script through a policy's own tree of queues or through a fabric.
//! The outcomes are written in the form that the caller chooses. Begin with specs/Studied.antt.
#![tactic(auto)]

mod command;
mod execution;
mod labels;
mod parts;
mod place;
mod preparation;
mod recorded;
mod runs;
mod sizes;
mod sums;
mod views;

pub use command::study;
pub use parts::{Drive, Measure, Study, View};
pub use recorded::{Recorded, record_own, record_through};
