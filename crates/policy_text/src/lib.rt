//! Reads the statements of policy texts, and prints statements as canonical text. Begin with
//! specs/Parsing.antt.
#![tactic(auto)]

mod address;
mod alternatives;
mod attributes;
mod conditions;
mod cursor;
mod fault;
mod line;
mod lines;
mod names;
mod parser;
mod part;
mod printing;
mod settings;
mod statements;
mod text;

pub use fault::TextFault;
pub use lines::Lines;
pub use policy_text_defs::{Attrs, Condition, Edition, FieldName, Statement, Term};
pub use printing::print;
pub use text::{MOST_TEXT, parse, parse_to};
