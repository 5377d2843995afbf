//! Prints statements as canonical text.

mod condition;
mod expression;
mod statement;
mod test;

ghost use Rattle.std.specs.Prelude.{◌≡◌, ◌++◌, map, IfOk, OnOk, codes};
ghost use Rattle.policy_text_defs.specs.Sense.{sense_of};
ghost use Rattle.policy_text_defs.specs.Text.{ReadsBack};
ghost use Rattle.policy_text_defs.specs.Canonical.{statement_text, canonical_text};
ghost use Rattle.policy_text.specs.Entries.{sense_at};

use crate::lines::Lines;
use list_core::List;
use policy_text_defs::Statement;
use statement::put_statement;
use std::alloc::{AllocError, Global};

/// Appends the canonical line of a statement.
fn put_line(into: &mut Vec<u8>, statement: &Statement) -> Result<(), AllocError>
    ensures { OnOk result (into.new.items ≡ into.old.items ++
        (statement_text (sense_of statement.now) ++ codes "\n")) }
{
    put_statement(into, statement)?;
    into.extend_from_slice(b"\n")
}

/// Appends the canonical lines of statements.
fn put_lines(into: &mut Vec<u8>, entries: &[(u32, Statement)]) -> Result<(), AllocError>
    ensures { OnOk result (into.new.items ≡ into.old.items ++ canonical_text
        (map sense_at entries.now)) }
{
    for (_, statement) in entries {
        put_line(into, statement)?;
    }
    Ok(())
}

/// Returns the canonical text of the statements, one a line; their line numbers are ignored.
#[tactic(auto, using(crate::proofs::PrintLaws::canonical_reads_back))]
pub fn print(alloc: Global, lines: &Lines) -> Result<List<u8>, AllocError>
    ensures text { IfOk result (λ text. text ≡ canonical_text (map sense_at lines.now.held)) }
    ensures reads_back { IfOk result (λ text. ReadsBack text (map sense_at lines.now.held)) }
{
    let mut text = Vec::new(alloc);
    put_lines(&mut text, lines.entries())?;
    Ok(List::from_vec(text))
}
