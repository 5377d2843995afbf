//! The keywords that begin statements.
ghost use Rattle.std.specs.Prelude.{◌≡◌};
ghost use Rattle.policy_text_defs.specs.Words.{keyword_of};

use crate::word::is;

/// A keyword: a word that begins a statement.
#[derive(Clone, Copy, PartialEq, Eq, Debug)]
pub enum Keyword {
    Policy,
    Transaction,
    Keep,
    Each,
    Push,
    Pop,
    Class,
    Leaf,
    Node,
}

impl Keyword {
    /// Returns the keyword that a word spells.
    pub fn of(word: &[u8]) -> Option<Keyword>
        ensures { result ≡ keyword_of word.now }
    {
        if is(word, "policy") {
            Some(Keyword::Policy)
        } else if is(word, "transaction") {
            Some(Keyword::Transaction)
        } else if is(word, "keep") {
            Some(Keyword::Keep)
        } else if is(word, "each") {
            Some(Keyword::Each)
        } else if is(word, "push") {
            Some(Keyword::Push)
        } else if is(word, "pop") {
            Some(Keyword::Pop)
        } else if is(word, "class") {
            Some(Keyword::Class)
        } else if is(word, "leaf") {
            Some(Keyword::Leaf)
        } else if is(word, "node") {
            Some(Keyword::Node)
        } else {
            None
        }
    }
}
