//! The command line in front of the replayer: options, a sink that holds back the `fault` line,
//! and messages. Begin with specs/Catching.antt.
#![tactic(auto)]

mod asked;
mod captures;
mod catching;
mod detail;
mod fault;
mod fault_line;
mod files;
mod lines;
mod mistake;
mod mistakes;
mod paint;
mod scan;
mod sizes;
mod statements;
mod target;
mod tell;

pub use asked::{Asked, Request, ask};
pub use captures::capture_kind;
pub use catching::Catching;
pub use detail::{tell_found, tell_status_of, with_detail};
pub use fault::{Fault, fault_in};
pub use files::{capture_of, file_of, file_read_at, is_text, name_shown, policy_of, target_of};
pub use lines::line_at;
pub use mistake::Mistake;
pub use mistakes::tell_mistake;
pub use paint::painted;
pub use sizes::size_detail;
pub use tell::{say_at_line, tell_fault, tell_status};
