//! A scheduler over the queues of a fabric of another shape, by a map of the policy's nodes. Begin
//! with specs/Embedded.antt.
#![tactic(auto)]

mod embedded;
mod embedding;
mod laws;

pub use embedded::Embedded;
pub use laws::five_points_stand;
