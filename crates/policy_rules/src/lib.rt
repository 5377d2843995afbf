//! Defines which statements are accepted, why others are rejected, and the policy that accepted
//! ones give. Checks declarations and lists: names, variables, transactions, the children of nodes,
//! the classes of leaves, and limits by version. Begin with specs/Accepted.antt and specs/Kept.antt.
#![tactic(auto)]

mod bodies;
mod bound;
mod builtins;
mod checked;
mod clauses;
mod fault;
mod known;
mod laws;
mod leaves;
mod limits;
mod names;
mod parents;
mod places;
mod placing;
mod program_laws;
mod room;
mod spaces;
mod tallies;
mod tally;
mod transaction;
mod variables;
mod words;

pub use builtins::BUILTINS;
pub use checked::checked_transactions;
pub use clauses::declarations;
pub use fault::PolicyFault;
pub use laws::{classic_statements_give_classic_policies, statements_have_one_fault};
pub use leaves::check_leaves;
pub use limits::{check_limits, version};
pub use names::Names;
pub use parents::check_parents;
pub use places::program_place;
pub use program_laws::known_programs_are_checked;
pub use spaces::Spaces;
pub use tally::Tally;
pub use words::is_builtin;
