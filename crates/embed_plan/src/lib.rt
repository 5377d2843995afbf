//! The plan of a policy for a target, as text: the least height, and the image of each node. Begin
//! with specs/Plan.antt.
#![tactic(auto)]

mod laws;
mod lines;
mod planning;

pub use laws::{policies_have_a_plan, policies_have_one_plan};
pub use planning::{PlanText, plan};
