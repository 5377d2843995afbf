//! Scripts of events, with their steps or first error, the clock of a link, and the generator of a
//! load. Begin with specs/Script.antt.
#![tactic(auto)]

mod fault;
mod laws;
mod line;
mod link;
mod load;
mod parse;
mod script;
mod step;

pub use fault::ScriptFault;
pub use laws::scripts_have_an_answer;
pub use link::{Link, MOST_OVERHEAD, MOST_RATE, send_time, send_time_at};
pub use load::Load;
pub use parse::{MOST_BYTES, MOST_COUNT, parse_events};
pub use script::Script;
pub use step::Step;
