//! Distinct names in order, each with its index.
ghost use Rattle.std.specs.Prelude.{◌≡◌, [], ◌∷◌, ◌++◌, length, position, IfOk, OnErr, if◌then◌else◌, not, OnOk};
ghost use Rattle.std.specs.Str.{bytes_eq};
ghost use Rattle.policy_rules.specs.Names.{has};
ghost use Rattle.policy_rules.specs.KnownNames.{with_name};

use std::alloc::{AllocError, Global};
use std::collections::BTreeMap;
use std::marker::Model;

/// Distinct names, in the order in which they were added. Policies choose the names, so look-ups
/// use an ordered map. With a hash map of known seed, a policy could make each look-up pass over
/// all names.
#[derive(Drop)]
pub struct Names<'a> {
    names: Vec<&'a str>,
    places: BTreeMap<&'a str, usize>,
}

impl<'a> Model for Names<'a> {
    ghost use Rattle.std.specs.Prelude.{List, ℕ};
    ghost use Rattle.policy_rules.specs.Places.{texts, ArePlaces};

    ghost Value = { List (List ℕ) };

    ghost view = { λ n. texts n.names.items };

    ghost invariant = { λ n. ArePlaces n.places (texts n.names.items) };
}

impl<'a> Names<'a> {
    pub fn new(alloc: Global) -> Names<'a>
        ensures { result ≡ [] }
    {
        Names {
            names: Vec::new(alloc),
            places: BTreeMap::new(alloc),
        }
    }

    /// Returns the number of names.
    pub fn len(&self) -> usize
        ensures { result ≡ length self.now }
    {
        self.names.len()
    }

    /// Returns the index of a name.
    pub fn place(&self, name: &str) -> Option<usize>
        ensures { result ≡ position (bytes_eq name.now) self.now }
    {
        self.places.get(name).copied()
    }

    /// Returns whether the name is present.
    pub fn contains(&self, name: &str) -> bool
        ensures { result ≡ has self.now name.now }
    {
        self.places.contains_key(name)
    }

    /// Adds a name if it isn't present yet. Returns false if it was present.
    pub fn add(&mut self, name: &'a str) -> Result<bool, AllocError>
        ensures new { IfOk result (λ new. new ≡ not (has self.old name.entry.now)) }
        ensures ok { OnOk result (self.new ≡ with_name self.old name.entry.now) }
        ensures err { OnErr result (self.new ≡ self.old) }
    {
        if self.contains(name) {
            return Ok(false);
        }
        self.names.reserve(1)?;
        self.places.insert(name, self.names.len())?;
        self.names.push_reserved(name);
        Ok(true)
    }
}
