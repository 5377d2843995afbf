//! Shows what a second reading of a command's inputs finds: details of an error in a capture or a
//! policy, and warnings about both.
#![tactic(auto)]

mod attributes;
mod blocks;
mod classic;
mod conditions;
mod counts;
mod damage;
mod divisors;
mod findings;
mod groups;
mod links;
mod notes;
mod policies;
mod prefixes;
mod reach;
mod reads;
mod walk;

pub use counts::{Counts, Seen, Tally};
pub use damage::{Damage, Found, damage_text};
pub use divisors::divisor_column;
pub use findings::capture_warnings;
pub use links::link_name;
pub use notes::Notes;
pub use policies::policy_warnings;
pub use walk::Walk;
