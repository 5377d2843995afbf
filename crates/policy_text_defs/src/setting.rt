//! The settings of leaves and nodes in the third edition.
ghost use Rattle.std.specs.Prelude.{◌≡◌};
ghost use Rattle.policy_text_defs.specs.Words.{setting_of};

use crate::attribute::{Attribute, Attrs};
use crate::queueing::Queueing;
use crate::word::is;

/// The settings of a leaf or node.
#[derive(Clone, Copy, PartialEq, Eq, Debug)]
pub struct Settings {
    pub attrs: Attrs,
    pub queueing: Queueing,
}

/// A setting: an attribute, a limit, or by what flows are told apart.
#[derive(Clone, Copy, PartialEq, Eq, Debug)]
pub enum Setting {
    Attribute(Attribute),
    Limit,
    Flow,
}

impl Setting {
    /// Returns the setting that a word begins.
    pub fn of(word: &[u8]) -> Option<Setting>
        ensures { result ≡ setting_of word.now }
    {
        if is(word, "limit") {
            Some(Setting::Limit)
        } else if is(word, "flow") {
            Some(Setting::Flow)
        } else {
            Some(Setting::Attribute(Attribute::of(word)?))
        }
    }
}
