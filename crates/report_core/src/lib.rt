//! The lines of a report, gathered in pieces and written to a sink.
#![tactic(auto)]

mod buffer;
mod fault;
mod last;
mod line;
mod report;
mod whole;

pub use fault::{FaultKind, WriteFault};
pub use report::Report;
pub use whole::write_fault;
