//! The outcomes of a run as JSON lines. Begin with specs/Json.antt.
#![tactic(auto)]

mod counts;
mod json;
mod laws;
mod line;
mod objects;
mod recorder;
mod times;

pub use json::JsonReport;
pub use laws::json_says_what_the_report_says;
