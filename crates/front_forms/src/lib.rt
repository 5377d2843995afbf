//! What may be at each place of a line, as one table, and what is wrong in a text: the place, what
//! was expected there and what was found. Begin with src/rows.rt.
#![tactic(auto)]

mod breaks;
mod detail;
mod expected;
mod given;
mod listed;
mod near;
mod rows;
mod rules;
mod steps;
mod walk;
mod want;
mod wording;
mod words;

pub use breaks::part;
pub use detail::{Detail, Error, blanks, detail_of, value_column};
pub use near::nearest;
pub use wording::{say, say_around, say_names, say_number, say_short, say_thousands};
pub use words::edition_of;
