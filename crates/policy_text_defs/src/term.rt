//! Expressions as written.
use list_core::Name;
use rank_defs::Op;

/// An expression whose names aren't resolved yet.
#[derive(Drop)]
pub enum Term {
    Number(u64),
    /// A name, or one of the words `len`, `now`, `prio`, `weight`, `slack` and `rank`.
    Word(Name),
    Two(Op, Box<Term>, Box<Term>),
    Not(Box<Term>),
    /// The condition, the value if the condition holds, and the value if it doesn't.
    If(Box<Term>, Box<Term>, Box<Term>),
}
