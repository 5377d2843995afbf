//! The commands over hardware that builds its queues from rank stores: those of replay_app, with
//! the spills of each run, and `calm`, which decides whether a policy can spill.
//! specs/Output.antt defines the output.
#![tactic(auto)]

mod calm_laws;
mod calmness;
mod command;
mod counting;
mod laws;
mod verdict;
mod words;

pub use calm_laws::{calm_at_each_node, calm_policies_never_spill, calm_runs_never_spill};
pub use calmness::calm;
pub use command::{block_run, block_run_to};
pub use laws::{block_words_have_an_answer, block_words_have_one_answer};
