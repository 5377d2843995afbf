//! The variables of a transaction.
ghost use Rattle.std.specs.Prelude.{◌≡◌, ◌≤◌, [], length, IfOk, OnOk};
ghost use Rattle.policy_text_defs.specs.Sense.{sense_of};
ghost use Rattle.policy_rules.specs.Names.{declared, keep_name, each_name};
ghost use Rattle.policy_rules.specs.Clauses.{most_variables};
ghost use Rattle.policy_rules.specs.Entries.{entries_of};
ghost use Rattle.policy_rules.specs.Programs.{variable_of, aim_of};
ghost use Rattle.policy_rules.specs.CheckedBodies.{IsSoundBody, with_names};

use crate::names::Names;
use policy_text_defs::Statement;
use rank_defs::{Aim, Var};
use std::alloc::{AllocError, Global};

/// The names of a transaction's variables: the node's, and each child's or flow's.
#[derive(Drop)]
pub struct Variables<'a> {
    pub keeps: Names<'a>,
    pub eaches: Names<'a>,
}

impl<'a> Variables<'a> {
    fn empty(alloc: Global) -> Variables<'a>
        ensures keeps { result.keeps ≡ [] }
        ensures eaches { result.eaches ≡ [] }
    {
        Variables {
            keeps: Names::new(alloc),
            eaches: Names::new(alloc),
        }
    }

    /// Returns the variables that the lines of a body declare. The error means out of memory.
    pub fn declared(
        alloc: Global,
        body: &'a [(u32, Statement)],
    ) -> Result<Variables<'a>, AllocError>
        requires { IsSoundBody (entries_of body.now) }
        ensures keeps { IfOk result (λ v. v.keeps ≡ declared keep_name
            (entries_of body.entry.now)) }
        ensures eaches { IfOk result (λ v. v.eaches ≡ declared each_name
            (entries_of body.entry.now)) }
        ensures few_keeps { IfOk result (λ v. length v.keeps ≤ most_variables) }
        ensures few_eaches { IfOk result (λ v. length v.eaches ≤ most_variables) }
    {
        let mut variables = Variables::empty(alloc);
        for (_, statement) in body {
            variables.declare(statement)?;
        }
        Ok(variables)
    }

    fn declare(&mut self, statement: &'a Statement) -> Result<(), AllocError>
        ensures keeps { OnOk result (self.new.keeps ≡ with_names self.old.keeps
            (keep_name (sense_of statement.entry.now))) }
        ensures eaches { OnOk result (self.new.eaches ≡ with_names self.old.eaches
            (each_name (sense_of statement.entry.now))) }
    {
        match statement {
            Statement::Keep(name, _) => {
                self.keeps.add(name.as_str())?;
            }
            Statement::Each(name, _) => {
                self.eaches.add(name.as_str())?;
            }
            _ => {}
        }
        Ok(())
    }

    /// Returns the variable that a word denotes.
    pub fn variable(&self, word: &str) -> Var
        requires few_keeps { length self.now.keeps ≤ most_variables }
        requires few_eaches { length self.now.eaches ≤ most_variables }
        ensures { result ≡ variable_of self.now.keeps self.now.eaches word.now }
    {
        match word {
            "len" => Var::Len,
            "now" => Var::Now,
            "prio" => Var::Prio,
            "weight" => Var::Weight,
            "slack" => Var::Slack,
            "rank" => Var::Rank,
            _ => match self.keeps.place(word) {
                Some(place) => Var::Keep(place as u32),
                None => Var::Each(self.eaches.place(word).unwrap_or(0) as u32),
            },
        }
    }

    /// Returns the variable or rank that a line with this name sets.
    pub fn aim(&self, name: &str) -> Aim
        requires few_keeps { length self.now.keeps ≤ most_variables }
        requires few_eaches { length self.now.eaches ≤ most_variables }
        ensures { result ≡ aim_of self.now.keeps self.now.eaches name.now }
    {
        if name == "rank" {
            return Aim::Rank;
        }
        match self.keeps.place(name) {
            Some(place) => Aim::Keep(place as u32),
            None => Aim::Each(self.eaches.place(name).unwrap_or(0) as u32),
        }
    }
}
