//! Builds one transaction from the lines of its body.
ghost use Rattle.std.specs.Prelude.{◌≡◌, ◌≤◌, [], ◌∷◌, length, IfOk, OnOk};
ghost use Rattle.rank_defs.specs.Formulas.{formula_of};
ghost use Rattle.rank_defs.specs.Programs.{assignment_of, program_of};
ghost use Rattle.policy_text_defs.specs.Phrase.{phrase_of};
ghost use Rattle.policy_text_defs.specs.Sense.{entry, sense_of};
ghost use Rattle.policy_rules.specs.Clauses.{most_variables};
ghost use Rattle.policy_rules.specs.Entries.{entries_of};
ghost use Rattle.policy_rules.specs.Programs.{formula_in, assignment_in, program_in};
ghost use Rattle.policy_rules.specs.CheckedBodies.{IsSoundBody, joined, program_over};

use crate::bound::Variables;
use list_core::{List, Name};
use policy_text_defs::{Statement, Term};
use rank_defs::{Assign, Expr, Transaction};
use std::alloc::{AllocError, Global};

fn expression(alloc: Global, variables: &Variables<'_>, term: &Term) -> Result<Expr, AllocError>
    requires few_keeps { length variables.now.keeps ≤ most_variables }
    requires few_eaches { length variables.now.eaches ≤ most_variables }
    ensures { IfOk result (λ e. formula_of e ≡ formula_in variables.now.keeps variables.now.eaches
        (phrase_of term.now)) }
{
    match term {
        Term::Number(n) => Ok(Expr::Number(*n)),
        Term::Word(word) => Ok(Expr::Var(variables.variable(word.as_str()))),
        Term::Two(op, a, b) => {
            let a = Box::new(alloc, expression(alloc, variables, a)?)?;
            let b = Box::new(alloc, expression(alloc, variables, b)?)?;
            Ok(Expr::Two(*op, a, b))
        }
        Term::Not(a) => Ok(Expr::Not(Box::new(alloc, expression(alloc, variables, a)?)?)),
        Term::If(test, a, b) => {
            let test = Box::new(alloc, expression(alloc, variables, test)?)?;
            let a = Box::new(alloc, expression(alloc, variables, a)?)?;
            let b = Box::new(alloc, expression(alloc, variables, b)?)?;
            Ok(Expr::If(test, a, b))
        }
    }
}

fn assign(
    alloc: Global,
    variables: &Variables<'_>,
    line: u32,
    name: &Name,
    value: &Term,
) -> Result<Assign, AllocError>
    requires few_keeps { length variables.now.keeps ≤ most_variables }
    requires few_eaches { length variables.now.eaches ≤ most_variables }
    ensures { IfOk result (λ a. assignment_of a
        ≡ assignment_in variables.now.keeps variables.now.eaches line name.now (phrase_of value.now)) }
{
    Ok(Assign {
        line,
        aim: variables.aim(name.as_str()),
        value: expression(alloc, variables, value)?,
    })
}

fn empty(alloc: Global) -> Transaction
    ensures { program_of result ≡ program_over [] [] [] }
{
    Transaction {
        keeps: List::from_vec(Vec::new(alloc)),
        eaches: List::from_vec(Vec::new(alloc)),
        push: List::from_vec(Vec::new(alloc)),
        pop: List::from_vec(Vec::new(alloc)),
    }
}

/// Adds a line of the body to the transaction.
fn add(
    alloc: Global,
    transaction: &mut Transaction,
    variables: &Variables<'_>,
    line: u32,
    statement: &Statement,
) -> Result<(), AllocError>
    requires few_keeps { length variables.now.keeps ≤ most_variables }
    requires few_eaches { length variables.now.eaches ≤ most_variables }
    ensures { OnOk result (program_of transaction.new ≡ joined (program_of transaction.old)
        (program_over variables.now.keeps variables.now.eaches (entry line (sense_of statement.now) ∷ []))) }
{
    match statement {
        Statement::Keep(_, span) => transaction.keeps.push(*span)?,
        Statement::Each(_, span) => transaction.eaches.push(*span)?,
        Statement::Push(name, value) => transaction
            .push
            .push(assign(alloc, variables, line, name, value)?)?,
        Statement::Pop(name, value) => transaction
            .pop
            .push(assign(alloc, variables, line, name, value)?)?,
        _ => {}
    }
    Ok(())
}

/// Returns the transaction of a body. The error means out of memory.
pub fn transaction(alloc: Global, body: &[(u32, Statement)]) -> Result<Transaction, AllocError>
    requires { IsSoundBody (entries_of body.now) }
    ensures { IfOk result (λ t. program_of t ≡ program_in (entries_of body.now)) }
{
    let variables = Variables::declared(alloc, body)?;
    let mut transaction = empty(alloc);
    for (line, statement) in body {
        add(alloc, &mut transaction, &variables, *line, statement)?;
    }
    Ok(transaction)
}
