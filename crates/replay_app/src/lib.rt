//! The commands: they take arguments and files, and write a report. specs/Output.antt defines the
//! output.
#![tactic(auto)]

mod command;
mod execution;
mod format;
mod host;
mod job;
mod laws;
mod laying;
mod maps;
mod not_run;
mod policies;
mod preparation;
mod refusal;
mod route;
mod scripts;
mod soak;
mod status;
mod stop;
mod targets;
mod topologies;
mod words;
mod writing;

pub use command::{NO_FORM, run, run_to};
pub use format::{Format, Limit, read_input};
pub use host::{Program, run_program};
pub use laws::{replay_reports_what_direct_reports, words_have_an_answer, words_have_one_answer};
pub use laying::lay;
pub use not_run::{NotRun, Rejection};
pub use policies::{PolicyFile, PolicyFormat};
pub use refusal::Refusal;
pub use sched_run::depart_line;
pub use scripts::ScriptFormat;
pub use status::Status;
pub use stop::stop_status;
pub use targets::{NO_ROOM, TargetFormat};
pub use words::uses_fabric;
pub use writing::{refuse, write, write_rejection};
