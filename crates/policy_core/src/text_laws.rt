//! Laws of policy texts and of accepted statements. Each law is the contract of an empty function.
ghost use Rattle.policy_core.specs.TextLaws.{PolicyTextsHaveAnAnswer, TextsHaveSoundEntries, FaultlessAreAccepted, StatementsGiveOnePolicy, StatementsGiveAPolicy};

/// In a text within the length limit, statements and a line in error can't both be missing.
pub fn policy_texts_have_an_answer()
    ensures law { PolicyTextsHaveAnAnswer }
{}

/// The statements of a text are on increasing lines, and each can be written as a line.
pub fn texts_have_sound_entries()
    ensures law { TextsHaveSoundEntries }
{}

/// Statements without an error are accepted.
pub fn faultless_are_accepted()
    ensures law { FaultlessAreAccepted }
{}

/// Accepted statements on increasing lines give at most one policy: the version, the tree, the
/// classes and the conditions are determined.
pub fn statements_give_one_policy()
    ensures law { StatementsGiveOnePolicy }
{}

/// Accepted statements on increasing lines give a policy.
pub fn statements_give_a_policy()
    ensures law { StatementsGiveAPolicy }
{}
