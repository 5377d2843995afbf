//! The format of a target's text, and its parser. The text is a TOML document with the arity of
//! each level; it describes the complete tree of queues that the hardware has. Begin with
//! specs/TargetText.antt.
#![tactic(auto)]

mod fault;
mod forms;
mod laws;
mod leaves;
mod read;
mod target;
mod values;

pub use fault::TargetFault;
pub use laws::{accepted_targets_are_in_range, texts_have_an_answer, texts_have_one_answer};
pub use read::{MOST_BYTES, read_target};
pub use target::Target;
