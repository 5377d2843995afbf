//! Warnings about a policy.
use crate::attributes::warn_of_attributes;
use crate::groups::warn_of_groups;
use crate::notes::Notes;
use crate::prefixes::warn_of_prefixes;
use crate::reach::{classes_of, warn_of_reach};
use crate::reads::NoMemory;
use policy_text::Lines;
use std::alloc::{AllocError, Global};

/// Adds all warnings about a policy.
fn warn(alloc: Global, notes: &mut Notes<'_>, lines: &Lines) -> Result<(), NoMemory> {
    let entries = lines.entries();
    let classes = classes_of(alloc, entries)?;
    warn_of_reach(alloc, notes, &classes)?;
    warn_of_prefixes(alloc, notes, entries)?;
    warn_of_attributes(alloc, notes, entries)?;
    warn_of_groups(alloc, notes, entries)
}

/// Returns the warnings about the policy of these statements, from the file of this name. Fails if
/// out of memory.
pub fn policy_warnings(alloc: Global, name: &str, lines: &Lines) -> Result<String, AllocError> {
    let mut notes = Notes::new(alloc, name);
    match warn(alloc, &mut notes, lines) {
        Ok(()) => notes.finish(),
        Err(_) => Err(AllocError),
    }
}
