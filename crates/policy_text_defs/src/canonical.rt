//! The laws of the canonical text.
ghost use Rattle.std.specs.Prelude.{◌≡◌, ◌↔◌, List, ℕ};
ghost use Rattle.policy_text_defs.specs.declared.edition.Edition.{Edition};
ghost use Rattle.policy_text_defs.specs.Sense.{Sense, Entry};
ghost use Rattle.policy_text_defs.specs.Text.{Carries, IsWritten, AreWritten, HasEntries, ReadsBack};
ghost use Rattle.policy_text_defs.specs.Valid.{IsValidIn};
ghost use Rattle.policy_text_defs.specs.Canonical.{statement_text, canonical_text};

/// A statement can be written as a line of an edition exactly if its names are valid, its numbers
/// are in range and its expression isn't too deep.
#[tactic(auto, using(crate::proofs::ValidLaws::IsWritten_IsValidIn, crate::proofs::CanonicalLaws::IsValidIn_IsWritten))]
pub fn written_statements_are_valid()
    ensures { (e : Edition) (s : Sense) → IsWritten e s ↔ IsValidIn e s }
{}

/// The canonical line of a statement reads back as that statement. The canonical text of a list of
/// statements of one edition reads back as exactly that list, numbered from line 1.
#[tactic(auto, using(crate::proofs::CanonicalLaws::statement_text_carries, crate::proofs::CanonicalLaws::canonical_text_has))]
pub fn canonical_text_reads_back()
    ensures line { (e : Edition) (s : Sense) → IsWritten e s → Carries e (statement_text s) s }
    ensures text { (ss : List Sense) → AreWritten ss → ReadsBack (canonical_text ss) ss }
{}

/// A line has at most one statement, and a text at most one list of statements.
pub fn texts_have_one_list_of_statements()
    ensures line { (e : Edition) (line : List ℕ) (s t : Sense) → Carries e line s →
        Carries e line t → s ≡ t }
    ensures text { (latest : Edition) (text : List ℕ) (es fs : List Entry) →
        HasEntries latest text es → HasEntries latest text fs → es ≡ fs }
{}
