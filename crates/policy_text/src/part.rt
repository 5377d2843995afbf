//! An expression with its depth.
ghost use Rattle.std.specs.Prelude.{◌≡◌, ◌≤◌};
ghost use Rattle.policy_text_defs.specs.Phrase as phrase;

use policy_text_defs::Term;

/// The most parentheses that may be open at once.
pub const MOST_OPEN: u32 = 64;

/// An expression and its depth.
#[derive(Drop)]
pub struct Part {
    pub term: Term,
    pub depth: u32,
    ghost measured: { depth ≡ phrase.depth (phrase.phrase_of term) },
    ghost low: { depth ≤ phrase.most_depth },
}
