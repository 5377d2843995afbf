//! Defines accepted policies, and the trait that gives the names of their nodes. Begin with
//! specs/Policy.antt.
#![tactic(auto)]

mod limits;
mod names;

pub use limits::Limits;
pub use names::NodeNames;
