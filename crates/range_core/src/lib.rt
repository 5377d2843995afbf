//! Checks scheduling transactions, using only the declared ranges. Begin with specs/Bounds.antt.
#![tactic(auto)]

mod bounds;
mod checked;
mod fault;
mod interval;
mod lines;
mod types;

pub use checked::{Checked, check};
pub use fault::RangeFault;
