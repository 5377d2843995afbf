//! The laws that follow from the definition of a script.
ghost use Rattle.events_core.specs.Laws.{ScriptsHaveAnAnswer};

/// A text that isn't too long can't lack both steps and a first error.
pub fn scripts_have_an_answer()
    ensures law { ScriptsHaveAnAnswer }
{}
