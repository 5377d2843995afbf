//! Defines the language of policy texts: the types of its statements, its grammar, and the
//! statements of a text. Begin with specs/Statements.antt.
#![tactic(auto)]

mod attribute;
mod canonical;
mod condition;
mod edition;
mod function;
mod keyword;
mod queueing;
mod readers;
mod setting;
mod statement;
mod term;
mod test;
mod word;

pub use attribute::{Attribute, Attrs};
pub use canonical::{
    canonical_text_reads_back, texts_have_one_list_of_statements, written_statements_are_valid,
};
pub use condition::{Condition, FieldName, Subject, protocol_of};
pub use edition::{Edition, Mode};
pub use function::Function;
pub use keyword::Keyword;
pub use queueing::{Bound, Queueing, group_of};
pub use readers::later_readers_read_earlier_texts;
pub use setting::{Setting, Settings};
pub use statement::Statement;
pub use term::Term;
pub use test::{Flag, Prefix, Probe, Range, TcpFlags, Test, TestField, TestSubject};
pub use word::{has_name, is, is_among, is_variable, name_of, operand_of, target_of};
