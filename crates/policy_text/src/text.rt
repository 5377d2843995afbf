//! Reads a whole policy text.
ghost use Rattle.std.specs.Prelude.{◌≡◌, map, IfOk, IfErr, OnOk};
ghost use Rattle.policy_text_defs.specs.Text.{HasEntries};
ghost use Rattle.policy_text_defs.specs.declared.edition.Edition.TheVariants.{Classic};
ghost use Rattle.policy_text.specs.Entries.{entry_of, mode_after};
ghost use Rattle.policy_text.specs.Parsing.{HasCause, Kept, AcceptsAll, RefusesAll};

use crate::fault::TextFault;
use crate::line::read_line;
use crate::lines::Lines;
use list_core::List;
use policy_text_defs::{Edition, Mode, Statement};
use std::alloc::{AllocError, Global};
use text_core::lines;

/// The greatest length of a policy text, in bytes.
pub const MOST_TEXT: usize = 1_048_576;

/// Appends the statement found on a line, if there is one.
fn keep(
    held: &mut List<(u32, Statement)>,
    number: u32,
    found: Option<Statement>,
) -> Result<(), AllocError>
    ensures { OnOk result (Kept number found held.old held.new) }
{
    match found {
        Some(statement) => held.push((number, statement)),
        None => Ok(()),
    }
}

/// Returns how the statement after this one is read, if there is one.
fn mode_after(mode: Mode, found: &Option<Statement>) -> Mode
    ensures { result ≡ mode_after mode found.now }
{
    match found {
        Some(statement) => mode.after(statement),
        None => mode,
    }
}

fn read(alloc: Global, text: &[u8], latest: Edition) -> Result<Lines, TextFault>
    ensures statements { IfOk result (λ lines. HasEntries latest text.now
        (map entry_of lines.held)) }
    ensures cause { IfErr result (HasCause latest text.now) }
{
    if text.len() > MOST_TEXT {
        return Err(TextFault::TooLong);
    }
    let lines = lines(alloc, text)?;
    let mut held = List::from_vec(Vec::new(alloc));
    let mut number = 0;
    let mut mode = Mode::Opening(latest);
    for line in lines.as_slice() {
        number += 1;
        let bytes = &text[line.start..line.end];
        let found = read_line(alloc, bytes, line.clean, number, mode)?;
        mode = mode_after(mode, &found);
        keep(&mut held, number, found)?;
    }
    Ok(Lines { held })
}

/// Returns the statements of a text with their line numbers. It reads the editions up to `latest`.
pub fn parse_to(alloc: Global, text: &[u8], latest: Edition) -> Result<Lines, TextFault>
    ensures statements { IfOk result (λ lines. HasEntries latest text.now
        (map entry_of lines.held)) }
    ensures cause { IfErr result (HasCause latest text.now) }
    ensures accepts { AcceptsAll latest text.now result }
    ensures refuses { RefusesAll latest text.now result }
{
    read(alloc, text, latest)
}

/// Returns the statements of a text of version 1 or 2 with their line numbers.
pub fn parse(alloc: Global, text: &[u8]) -> Result<Lines, TextFault>
    ensures statements { IfOk result (λ lines. HasEntries Classic text.now
        (map entry_of lines.held)) }
    ensures cause { IfErr result (HasCause Classic text.now) }
    ensures accepts { AcceptsAll Classic text.now result }
    ensures refuses { RefusesAll Classic text.now result }
{
    parse_to(alloc, text, Edition::Classic)
}
