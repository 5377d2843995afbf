//! The attributes of classes, leaves and nodes.
ghost use Rattle.std.specs.Prelude.{◌≡◌};
ghost use Rattle.policy_text_defs.specs.Words.{attribute_of};
ghost use Rattle.policy_text_defs.specs.Ranges.{attribute_least, attribute_most};

use crate::word::is;
use rank_defs::{MAX_PRIO, MAX_SLACK, MAX_WEIGHT};

/// The attributes that a class, leaf or node is given; an attribute that isn't written is `None`.
#[derive(Clone, Copy, PartialEq, Eq, Debug)]
pub struct Attrs {
    pub prio: Option<u32>,
    pub weight: Option<u32>,
    /// In nanoseconds.
    pub slack: Option<u64>,
}

/// An attribute: a priority, a weight or a slack.
#[derive(Clone, Copy, PartialEq, Eq, Debug)]
pub enum Attribute {
    Prio,
    Weight,
    Slack,
}

impl Attribute {
    /// Returns the attribute that a word names.
    pub fn of(word: &[u8]) -> Option<Attribute>
        ensures { result ≡ attribute_of word.now }
    {
        if is(word, "prio") {
            Some(Attribute::Prio)
        } else if is(word, "weight") {
            Some(Attribute::Weight)
        } else if is(word, "slack") {
            Some(Attribute::Slack)
        } else {
            None
        }
    }

    /// Returns the least value that may be written.
    pub fn least(self) -> u64
        ensures { result ≡ attribute_least self }
    {
        match self {
            Attribute::Weight => 1,
            Attribute::Prio | Attribute::Slack => 0,
        }
    }

    /// Returns the greatest value that may be written; a slack is in nanoseconds.
    pub fn most(self) -> u64
        ensures { result ≡ attribute_most self }
    {
        match self {
            Attribute::Prio => u64::from(MAX_PRIO),
            Attribute::Weight => u64::from(MAX_WEIGHT),
            Attribute::Slack => MAX_SLACK,
        }
    }
}
