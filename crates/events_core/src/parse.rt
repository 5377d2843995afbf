//! Reading a script: its lines in order, up to the first error.
ghost use Rattle.std.specs.Prelude.{◌≡◌, ◌↔◌, ◌⊎◌, ◌+◌, ◌<◌, ◌≤◌, ℕ, length, List, IfOk, IfErr, MatchResult};
ghost use Rattle.std.specs.Option.{option_to_list};
ghost use Rattle.text_core.specs.Lines.{is_clean_text};
ghost use Rattle.events_core.specs.declared.fault.ScriptFault.TheVariants.{Line, TooMany, TooLong, NoMemory};
ghost use Rattle.events_core.specs.Steps.{counts_of};
ghost use Rattle.events_core.specs.Script.{Carries, IsAtFault, IsScript, IsFirstFault, most_bytes, most_count, ForScript, ForFirstFault};

use crate::fault::ScriptFault;
use crate::line::read_line;
use crate::script::Script;
use crate::step::Step;
use list_core::List;
use std::alloc::Global;
use text_core::{Refusal, line_from};

/// The greatest length of a script in bytes.
pub const MOST_BYTES: usize = 1_048_576;

/// The greatest sum of the arrivals and departures that the lines of a script count.
pub const MOST_COUNT: u64 = 4_194_304;

/// Returns the step of a line, if it has one. `counted` is the sum of the counts of the lines
/// before it.
fn next_step(
    alloc: Global,
    statement: &[u8],
    clean: bool,
    number: u32,
    counted: u64,
) -> Result<Option<Step>, ScriptFault>
    requires marked { clean ≡ is_clean_text statement.now }
    requires low { counted ≤ most_count }
    ensures ok { IfOk result (λ s. Carries statement.now (option_to_list s)) }
    ensures few { IfOk result (λ s. counted + counts_of (option_to_list s) ≤ most_count) }
    ensures fault { IfErr result (λ f. (f ≡ NoMemory) ⊎ IsAtFault counted statement.now number f) }
{
    let step = match read_line(alloc, statement, clean) {
        Ok(step) => step,
        Err(Refusal::NoForm) => return Err(ScriptFault::Line(number)),
        Err(Refusal::NoMemory) => return Err(ScriptFault::NoMemory),
    };
    match step {
        Some(step) if step.count() > MOST_COUNT - counted => Err(ScriptFault::TooMany(number)),
        step => Ok(step),
    }
}

/// Returns the script of a text that isn't too long.
fn read_lines(alloc: Global, text: &[u8]) -> Result<Script, ScriptFault>
    requires { length text.now ≤ most_bytes }
    ensures { MatchResult result (IsScript text.now) (λ f. (f ≡ NoMemory) ⊎ IsFirstFault text.now
        f) }
{
    let mut steps = List::from_vec(Vec::new(alloc));
    let mut counted = 0;
    let mut number = 0;
    let mut at = 0;
    while at < text.len() {
        let (line, next) = line_from(text, at);
        number += 1;
        let statement = &text[line.start..line.end];
        if let Some(step) = next_step(alloc, statement, line.clean, number, counted)? {
            counted += step.count();
            steps.push(step)?;
        }
        at = next;
    }
    Ok(Script::of(steps))
}

/// Returns the script of a text, or its error: the text is too long, or the first line with an
/// error.
pub fn parse_events(alloc: Global, text: &[u8]) -> Result<Script, ScriptFault>
    ensures script { IfOk result (IsScript text.now) }
    ensures too_long { (result ≡ Err TooLong) ↔ (most_bytes < length text.now) }
    ensures line { (n : ℕ) → result ≡ Err (Line n) → IsFirstFault text.now (Line n) }
    ensures too_many { (n : ℕ) → result ≡ Err (TooMany n) → IsFirstFault text.now (TooMany n) }
    ensures accepted { ForScript text.now (λ steps. MatchResult result (λ s. s ≡ steps) (λ f. f ≡
        NoMemory)) }
    ensures refused { ForFirstFault text.now (λ fault. MatchResult result (λ _. ⊥) (λ f.
        (f ≡ fault) ⊎ (f ≡ NoMemory))) }
{
    if text.len() > MOST_BYTES {
        return Err(ScriptFault::TooLong);
    }
    read_lines(alloc, text)
}
