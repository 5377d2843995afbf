//! The names seen, and those seen more than once.
ghost use Rattle.std.specs.Prelude.{◌≡◌, ◌∷◌, ◌++◌, [], List, OnOk, OnErr};
ghost use Rattle.policy_rules.specs.Names.{Name as Bytes, is_once};
ghost use Rattle.policy_rules.specs.KnownNames.{IsTallyOf};

use crate::names::Names;
use std::alloc::{AllocError, Global};

/// The names seen, and those seen more than once.
#[derive(Drop)]
pub struct Tally<'a> {
    pub(crate) seen: Names<'a>,
    pub(crate) again: Names<'a>,
}

impl<'a> Tally<'a> {
    pub fn new(alloc: Global) -> Tally<'a>
        ensures { IsTallyOf result [] }
    {
        Tally {
            seen: Names::new(alloc),
            again: Names::new(alloc),
        }
    }

    /// Adds one occurrence of a name. The error means out of memory, and leaves the tally
    /// unchanged.
    pub fn add(&mut self, name: &'a str) -> Result<(), AllocError>
        ensures tally { (all : List Bytes) → IsTallyOf self.old all →
            OnOk result (IsTallyOf self.new (all ++ name.entry.now ∷ [])) }
        ensures seen { OnErr result (self.new.seen ≡ self.old.seen) }
        ensures again { OnErr result (self.new.again ≡ self.old.again) }
    {
        if !self.seen.add(name)? {
            self.again.add(name)?;
        }
        Ok(())
    }

    /// Returns whether the name occurred exactly once.
    pub fn is_once(&self, name: &str) -> bool
        ensures { (all : List Bytes) → IsTallyOf self.now all → result ≡ is_once all name.now }
    {
        self.seen.contains(name) && !self.again.contains(name)
    }
}
