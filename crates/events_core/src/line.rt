//! The step that a line of a script requests.
ghost use Rattle.std.specs.Prelude.{◌≡◌, List, [], ◌∷◌, IfOk, IfSome, Some, None};
ghost use Rattle.std.specs.Option.{option_to_list};
ghost use Rattle.text_core.specs.Glyphs.{glyphs_of};
ghost use Rattle.text_core.specs.Lines.{is_clean_text};
ghost use Rattle.events_core.specs.Steps.{line_steps};
ghost use Rattle.events_core.specs.Script.{Carries};

use crate::step::Step;
use std::alloc::Global;
use text_core::{Item, Refusal, decimal, items};

/// Returns the step of a line with these items, if it has one.
fn step_of(items: &[Item<'_>]) -> Result<Option<Step>, Refusal>
    ensures ok { IfOk result (λ s. line_steps (glyphs_of items.now) ≡ Some (option_to_list s)) }
    ensures none { result ≡ Err Refusal.NoForm → line_steps (glyphs_of items.now) ≡ None }
{
    let step = match items {
        [] => return Ok(None),
        [Item::Word(word)] => Step::of(word),
        [Item::Word(word), Item::Number(count)] => Step::counted(word, *count),
        _ => None,
    };
    match step {
        Some(step) => Ok(Some(step)),
        None => Err(Refusal::NoForm),
    }
}

/// Returns the step of a line in a usual form: a word alone, or a letter, a space and digits.
fn usual_step(statement: &[u8]) -> Option<Step>
    ensures { IfSome result (λ s. Carries statement.now (s ∷ [])) }
{
    match statement {
        [b'a', b' ', digits @ ..] => Some(Step::Arrive(decimal(digits)?)),
        [b'd', b' ', digits @ ..] => Some(Step::Depart(decimal(digits)?)),
        _ => Step::of(statement),
    }
}

/// Returns the step of a line, if it has one.
pub(crate) fn read_line(
    alloc: Global,
    statement: &[u8],
    clean: bool,
) -> Result<Option<Step>, Refusal>
    requires { clean ≡ is_clean_text statement.now }
    ensures ok { IfOk result (λ s. Carries statement.now (option_to_list s)) }
    ensures none { result ≡ Err Refusal.NoForm → (s : List Step) → Carries statement.now s → ⊥ }
{
    // Most lines need no list of tokens.
    if let Some(step) = usual_step(statement) {
        return Ok(Some(step));
    }
    if !clean {
        return Err(Refusal::NoForm);
    }
    let items = items(alloc, statement)?;
    step_of(items.as_slice())
}
