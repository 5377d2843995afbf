//! Writes a policy as a text of version 3. Begin with specs/Upgraded.antt.
#![tactic(auto)]

mod command;
mod reserved;
mod text;

pub use command::upgrade;
pub use reserved::reserved_in;
