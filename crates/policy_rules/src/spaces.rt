//! The spaces of names, in which each name is declared once.
ghost use Rattle.std.specs.Prelude.{◌≡◌, ◌≤◌, List, [], IfOk, OnOk, IfErr};
ghost use Rattle.policy_text_defs.specs.Sense.{Entry, sense_of};
ghost use Rattle.policy_rules.specs.Accepted.{ArePlaced, AreNew, IsFault};
ghost use Rattle.policy_rules.specs.Clauses.{is_declared};
ghost use Rattle.policy_rules.specs.Codes.{code_of};
ghost use Rattle.policy_rules.specs.Entries.{entries_of, AreRising};
ghost use Rattle.policy_rules.specs.Kept.{AreSpaces, AreSpacesAfter, AreVariables};

use crate::PolicyFault;
use crate::names::Names;
use crate::variables::variables_after;
use crate::words::is_builtin;
use policy_text_defs::Statement;
use std::alloc::{AllocError, Global};

/// The names that statements declare: transactions, classes, and nodes and leaves together.
#[derive(Drop)]
pub struct Spaces<'a> {
    pub transactions: Names<'a>,
    pub classes: Names<'a>,
    pub nodes: Names<'a>,
}

impl<'a> Spaces<'a> {
    fn new(alloc: Global) -> Spaces<'a>
        ensures { AreSpaces [] result }
    {
        Spaces {
            transactions: Names::new(alloc),
            classes: Names::new(alloc),
            nodes: Names::new(alloc),
        }
    }

    /// Returns whether the statement's name is already declared in its space.
    fn is_declared(&self, variables: &Names, statement: &Statement) -> bool
        ensures { (earlier : List Entry) → AreSpaces earlier self.now →
            AreVariables earlier variables.now
            → result ≡ is_declared earlier (sense_of statement.now) }
    {
        match statement {
            Statement::Version(_) | Statement::Push(..) | Statement::Pop(..) => false,
            Statement::Transaction(name) => {
                is_builtin(name.as_str()) || self.transactions.contains(name.as_str())
            }
            Statement::Keep(name, _) | Statement::Each(name, _) => {
                variables.contains(name.as_str())
            }
            Statement::Class(name, _, _) | Statement::Filter(name, _, _) => {
                self.classes.contains(name.as_str())
            }
            Statement::Leaf(name, _, _, _, _) | Statement::Node(name, _, _, _, _) => {
                self.nodes.contains(name.as_str())
            }
        }
    }

    /// Adds the name of a statement whose name isn't declared yet.
    fn add(&mut self, statement: &'a Statement) -> Result<(), AllocError>
        ensures { OnOk result (AreSpacesAfter self.old (sense_of statement.entry.now) self.new) }
    {
        match statement {
            Statement::Transaction(name) => {
                self.transactions.add(name.as_str())?;
                Ok(())
            }
            Statement::Class(name, _, _) | Statement::Filter(name, _, _) => {
                self.classes.add(name.as_str())?;
                Ok(())
            }
            Statement::Leaf(name, _, _, _, _) | Statement::Node(name, _, _, _, _) => {
                self.nodes.add(name.as_str())?;
                Ok(())
            }
            Statement::Version(_)
            | Statement::Keep(..)
            | Statement::Each(..)
            | Statement::Push(..)
            | Statement::Pop(..) => Ok(()),
        }
    }
}

/// Returns the names that all statements declare, if no name is declared twice.
pub fn declared<'a>(alloc: Global, lines: &'a [(u32, Statement)]) -> Result<Spaces<'a>, PolicyFault>
    requires rising { AreRising (entries_of lines.now) }
    requires placed { ArePlaced (entries_of lines.now) }
    ensures spaces { IfOk result (AreSpaces (entries_of lines.entry.now)) }
    ensures new { OnOk result (AreNew (entries_of lines.entry.now)) }
    ensures fault { IfErr result (IsFault (entries_of lines.entry.now)) }
    ensures early { IfErr result (λ f. code_of f ≤ 2) }
{
    let mut spaces = Spaces::new(alloc);
    let mut variables = Names::new(alloc);
    for (line, statement) in lines {
        if spaces.is_declared(&variables, statement) {
            return Err(PolicyFault::Twice(*line));
        }
        spaces.add(statement)?;
        variables = variables_after(alloc, variables, statement)?;
    }
    Ok(spaces)
}
