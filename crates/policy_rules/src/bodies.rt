//! Collects all transactions that are written.
ghost use Rattle.std.specs.Prelude.{◌≡◌, All, take_while, OnOk};
ghost use Rattle.std.specs.List.{AllByRecursion};
ghost use Rattle.policy_text_defs.specs.Sense.{sense_of};
ghost use Rattle.policy_text_defs.specs.Valid.{IsValid};
ghost use Rattle.policy_rules.specs.Accepted.{AreFew};
ghost use Rattle.policy_rules.specs.Bodies.{is_body, opened};
ghost use Rattle.policy_rules.specs.Entries.{entries_of, AreRising};
ghost use Rattle.policy_rules.specs.Programs.{programs};
ghost use Rattle.policy_rules.specs.CheckedBodies.{IsSoundBody, programs_begun, AreMore};

use crate::transaction::transaction;
use list_core::List;
use policy_text_defs::Statement;
use rank_defs::Transaction;
use std::alloc::{AllocError, Global};

fn is_body(statement: &Statement) -> bool
    ensures { result ≡ is_body (sense_of statement.now) }
{
    match statement {
        Statement::Keep(_, _)
        | Statement::Each(_, _)
        | Statement::Push(_, _)
        | Statement::Pop(_, _) => true,
        _ => false,
    }
}

/// Returns the leading lines that belong to a body.
fn body(lines: &[(u32, Statement)]) -> &[(u32, Statement)]
    ensures { entries_of result.now ≡ take_while (λ e. is_body e.1) (entries_of lines.now) }
{
    match lines.iter().position(|(_, statement)| !is_body(statement)) {
        Some(end) => &lines[..end],
        None => lines,
    }
}

/// Adds the transaction that a statement begins, if it begins one, given the lines after it.
fn add_begun(
    alloc: Global,
    transactions: &mut List<Transaction>,
    statement: &Statement,
    behind: &[(u32, Statement)],
) -> Result<(), AllocError>
    requires { AllByRecursion (λ b. IsSoundBody b.lines) (opened (sense_of statement.now)
        (entries_of behind.now)) }
    ensures { OnOk result (AreMore (programs_begun (sense_of statement.now) (entries_of behind.now))
        transactions.old transactions.new) }
{
    match statement {
        Statement::Transaction(_) => transactions.push(transaction(alloc, body(behind))?),
        _ => Ok(()),
    }
}

/// Adds the transactions that are written, in the order of their lines. The error means out of
/// memory.
pub fn add_written(
    alloc: Global,
    transactions: &mut List<Transaction>,
    lines: &[(u32, Statement)],
) -> Result<(), AllocError>
    requires rising { AreRising (entries_of lines.now) }
    requires few { AreFew (entries_of lines.now) }
    requires valid { All (λ e. IsValid e.1) (entries_of lines.now) }
    ensures { OnOk result (AreMore (programs (entries_of lines.now)) transactions.old
        transactions.new) }
{
    for (place, (_, statement)) in lines.iter().enumerate() {
        add_begun(alloc, transactions, statement, &lines[place + 1..])?;
    }
    Ok(())
}
