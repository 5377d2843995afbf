//! The statements of a policy.
use crate::attribute::Attrs;
use crate::condition::Condition;
use crate::queueing::Queueing;
use crate::term::Term;
use crate::test::Test;
use list_core::{List, Name};
use rank_defs::Span;

/// A statement of a policy.
#[derive(Drop)]
pub enum Statement {
    Version(u32),
    Transaction(Name),
    /// A variable of the node, with its range and first value.
    Keep(Name, Span),
    /// A variable of each child or flow, with its range and first value.
    Each(Name, Span),
    /// The variable that a push sets, or `rank`, and its new value.
    Push(Name, Term),
    Pop(Name, Term),
    /// A class of the classic edition.
    Class(Name, Attrs, List<Condition>),
    /// A class of the third edition. Each packet meets a class without alternatives.
    Filter(Name, Attrs, List<List<Test>>),
    /// The leaf, its transaction, its attributes, its limits and flows, and its classes.
    Leaf(Name, Name, Attrs, Queueing, List<Name>),
    /// The node, its transaction, its attributes, its limits and flows, and its children.
    Node(Name, Name, Attrs, Queueing, List<Name>),
}
