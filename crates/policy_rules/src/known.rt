//! Checks that the names that statements use are declared.
ghost use Rattle.std.specs.Prelude.{◌≡◌, List, IfOk, codes, ◌||◌};
ghost use Rattle.std.specs.List.{list_all};
ghost use Rattle.std.specs.Str.{bytes_eq};
ghost use Rattle.policy_text_defs.specs.Phrase.{phrase_of};
ghost use Rattle.policy_text_defs.specs.Sense.{Entry, sense_of};
ghost use Rattle.policy_rules.specs.Names.{has};
ghost use Rattle.policy_rules.specs.Clauses.{IsFirstLine, IsUnknown, is_known, are_operands_known, is_transaction_known};
ghost use Rattle.policy_rules.specs.Entries.{entries_of, AreRising};
ghost use Rattle.policy_rules.specs.Kept.{AreSpaces, AreVariables};

use crate::names::Names;
use crate::spaces::Spaces;
use crate::variables::variables_after;
use crate::words::is_builtin;
use list_core::Name;
use policy_text_defs::{Statement, Term, is_variable};
use std::alloc::{AllocError, Global};

/// Returns whether each word of an expression is a built-in variable or one of the variables.
fn are_operands_known(variables: &Names, term: &Term) -> bool
    ensures { result ≡ are_operands_known variables.now (phrase_of term.now) }
{
    match term {
        Term::Number(_) => true,
        Term::Word(word) => {
            is_variable(word.as_str().as_bytes()) || variables.contains(word.as_str())
        }
        Term::Two(_, left, right) => {
            are_operands_known(variables, left) && are_operands_known(variables, right)
        }
        Term::Not(inner) => are_operands_known(variables, inner),
        Term::If(test, then, other) => {
            are_operands_known(variables, test)
                && are_operands_known(variables, then)
                && are_operands_known(variables, other)
        }
    }
}

/// Returns whether a push line may set this name: the rank, or a variable.
fn is_target_known(variables: &Names, name: &str) -> bool
    ensures { result ≡ (bytes_eq name.now (codes "rank") || has variables.now name.now) }
{
    name == "rank" || variables.contains(name)
}

/// Returns whether each name is among the declared ones.
fn are_among(names: &[Name], declared: &Names) -> bool
    ensures { result ≡ list_all (has declared.now) names.now }
{
    names.iter().all(|name| declared.contains(name.as_str()))
}

/// Returns whether a transaction is built in or declared.
fn is_transaction_known(spaces: &Spaces, name: &str) -> bool
    ensures { (entries : List Entry) → AreSpaces entries spaces.now →
        result ≡ is_transaction_known entries name.now }
{
    is_builtin(name) || spaces.transactions.contains(name)
}

/// Returns whether all names that a statement uses are declared.
fn is_known(spaces: &Spaces, variables: &Names, statement: &Statement) -> bool
    ensures { (entries earlier : List Entry) → AreSpaces entries spaces.now →
        AreVariables earlier variables.now
        → result ≡ is_known entries earlier (sense_of statement.now) }
{
    match statement {
        Statement::Push(name, value) => {
            is_target_known(variables, name.as_str()) && are_operands_known(variables, value)
        }
        Statement::Pop(name, value) => {
            variables.contains(name.as_str()) && are_operands_known(variables, value)
        }
        Statement::Leaf(_, used, _, _, classes) => {
            is_transaction_known(spaces, used.as_str())
                && are_among(classes.as_slice(), &spaces.classes)
        }
        Statement::Node(_, used, _, _, children) => {
            is_transaction_known(spaces, used.as_str())
                && are_among(children.as_slice(), &spaces.nodes)
        }
        Statement::Version(_)
        | Statement::Transaction(_)
        | Statement::Keep(..)
        | Statement::Each(..)
        | Statement::Class(..)
        | Statement::Filter(..) => true,
    }
}

/// Returns the line of the first statement that uses a name that isn't declared.
pub fn first_unknown(
    alloc: Global,
    lines: &[(u32, Statement)],
    spaces: &Spaces,
) -> Result<Option<u32>, AllocError>
    requires rising { AreRising (entries_of lines.now) }
    requires spaces { AreSpaces (entries_of lines.now) spaces.now }
    ensures { IfOk result (IsFirstLine (IsUnknown (entries_of lines.now)) (entries_of lines.now)) }
{
    let mut variables = Names::new(alloc);
    for (line, statement) in lines {
        if !is_known(spaces, &variables, statement) {
            return Ok(Some(*line));
        }
        variables = variables_after(alloc, variables, statement)?;
    }
    Ok(None)
}
