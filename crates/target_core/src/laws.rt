//! Laws about a target's text.
ghost use Rattle.target_core.specs.Laws.{TextsHaveOneAnswer, TextsHaveAnAnswer, AcceptedTargetsAreInRange};

/// A text gives one target or has one error, and never both.
pub fn texts_have_one_answer()
    ensures law { TextsHaveOneAnswer }
{}

/// Each text gives a target or has an error.
pub fn texts_have_an_answer()
    ensures law { TextsHaveAnAnswer }
{}

/// An accepted text gives a target: at most 16 levels, each with 2 to 64 children at a node, and at
/// most 65,536 leaves. The nodes of the levels above it also have 2 to 64 children.
pub fn accepted_targets_are_in_range()
    ensures law { AcceptedTargetsAreInRange }
{}
