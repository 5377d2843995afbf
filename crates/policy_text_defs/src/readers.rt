//! The law of the readers of the editions.
ghost use Rattle.std.specs.Prelude.{List, ℕ};
ghost use Rattle.text_core.specs.Lines.{statements_of};
ghost use Rattle.policy_text_defs.specs.declared.edition.Edition.TheVariants.{Classic, Third};
ghost use Rattle.policy_text_defs.specs.Sense.{Entry};
ghost use Rattle.policy_text_defs.specs.Text.{Fault, HasEntries, IsFirstFault, ChooseThird};

/// A reader of the third edition reads each text that doesn't begin with `policy 3` as a reader of
/// the classic edition does: with the same statements, or with the same first error.
#[tactic(auto, using(crate::proofs::EditionLaws::third_has_entries, crate::proofs::EditionLaws::third_has_fault))]
pub fn later_readers_read_earlier_texts()
    ensures statements { (text : List ℕ) (es : List Entry) → HasEntries Classic text es →
        HasEntries Third text es }
    ensures fault { (text : List ℕ) (n : ℕ) (f : Fault) → (ChooseThird (statements_of text) → ⊥) →
        IsFirstFault Classic text n f → IsFirstFault Third text n f }
{}
