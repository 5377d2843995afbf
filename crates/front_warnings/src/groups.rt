//! Flows that are told apart without effect.
use crate::notes::Notes;
use crate::reads::{NoMemory, Readers};
use policy_text_defs::{Queueing, Statement};
use std::alloc::Global;

/// Returns whether a statement says by what flows are told apart and has no limit per flow.
fn groups_only(queueing: &Queueing) -> bool {
    queueing.by.is_some() && queueing.per_flow.is_none()
}

/// Adds a warning if a statement tells flows apart for nothing.
fn warn_of_statement(
    alloc: Global,
    notes: &mut Notes<'_>,
    entry: &(u32, Statement),
    readers: &Readers<'_>,
) -> Result<(), NoMemory> {
    let line = entry.0;
    match &entry.1 {
        Statement::Node(name, _, _, queueing, _) if groups_only(queueing) => {
            let name = name.as_str();
            let what = format!(in alloc;
                "flow by of {name} has no effect: a node needs a limit per flow for it"
            )?;
            notes.add_at(line, &what)?;
        }
        Statement::Leaf(name, using, _, queueing, _)
            if groups_only(queueing) && !readers.reads(using.as_str()).flows => {
            let (name, using) = (name.as_str(), using.as_str());
            let what = format!(in alloc;
                "flow by of {name} has no effect: {using} has no variable for each flow, and {name} has no limit per flow"
            )?;
            notes.add_at(line, &what)?;
        }
        _ => (),
    }
    Ok(())
}

/// Adds a warning for each `flow by` without effect. Fails if out of memory.
pub fn warn_of_groups(
    alloc: Global,
    notes: &mut Notes<'_>,
    entries: &[(u32, Statement)],
) -> Result<(), NoMemory> {
    let readers = Readers::of(alloc, entries)?;
    for entry in entries {
        warn_of_statement(alloc, notes, entry, &readers)?;
    }
    Ok(())
}
