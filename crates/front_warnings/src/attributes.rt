//! Attributes without effect.
use crate::notes::Notes;
use crate::reads::{NOTHING, NoMemory, Readers, Reads};
use list_core::Name;
use policy_text_defs::{Attrs, Statement};
use std::alloc::Global;
use std::collections::BTreeMap;

/// The node or leaf that lists a child or a class, and its transaction.
#[derive(Clone, Copy)]
struct Above<'a> {
    name: &'a str,
    using: &'a str,
}

/// The node above each node and leaf, and the leaf of each class, by their names.
#[derive(Drop)]
struct Tree<'a> {
    parents: BTreeMap<&'a str, Above<'a>>,
    leaves: BTreeMap<&'a str, Above<'a>>,
}

/// Notes what is above each of the names.
fn put<'a>(
    into: &mut BTreeMap<&'a str, Above<'a>>,
    names: &'a [Name],
    above: Above<'a>,
) -> Result<(), NoMemory> {
    for name in names {
        into.insert(name.as_str(), above)?;
    }
    Ok(())
}

impl<'a> Tree<'a> {
    /// Returns the tree that statements describe. Fails if out of memory.
    fn of(alloc: Global, entries: &'a [(u32, Statement)]) -> Result<Tree<'a>, NoMemory> {
        let mut tree = Tree {
            parents: BTreeMap::new(alloc),
            leaves: BTreeMap::new(alloc),
        };
        for entry in entries {
            tree.add(&entry.1)?;
        }
        Ok(tree)
    }

    /// Returns the node that lists a node or leaf.
    fn parent_of(&self, name: &str) -> Option<Above<'a>> {
        self.parents.get(name).copied()
    }

    /// Returns the leaf that lists a class.
    fn leaf_of(&self, name: &str) -> Option<Above<'a>> {
        self.leaves.get(name).copied()
    }

    /// Adds what a statement lists.
    fn add(&mut self, statement: &'a Statement) -> Result<(), NoMemory> {
        match statement {
            Statement::Leaf(name, using, _, _, classes) => put(
                &mut self.leaves,
                classes.as_slice(),
                Above {
                    name: name.as_str(),
                    using: using.as_str(),
                },
            ),
            Statement::Node(name, using, _, _, children) => put(
                &mut self.parents,
                children.as_slice(),
                Above {
                    name: name.as_str(),
                    using: using.as_str(),
                },
            ),
            _ => Ok(()),
        }
    }
}

/// The attributes that a statement writes.
#[derive(Drop)]
struct Written<'a> {
    line: u32,
    name: &'a str,
    attrs: Attrs,
}

/// Returns the names of the attributes that are written, each with whether it is read.
fn listed(attrs: Attrs, reads: Reads) -> [(&'static str, bool, bool); 3] {
    [
        ("prio", attrs.prio.is_some(), reads.prio),
        ("weight", attrs.weight.is_some(), reads.weight),
        ("slack", attrs.slack.is_some(), reads.slack),
    ]
}

/// Adds a warning for each attribute that the transaction above doesn't read.
fn warn_unread(
    alloc: Global,
    notes: &mut Notes<'_>,
    written: &Written<'_>,
    above: Above<'_>,
    reads: Reads,
) -> Result<(), NoMemory> {
    let name = written.name;
    let (parent, using) = (above.name, above.using);
    for (attribute, is_written, is_read) in listed(written.attrs, reads) {
        if is_written && !is_read {
            let what = format!(in alloc;
                "{attribute} of {name} has no effect: {parent} uses {using}, which doesn't read {attribute}"
            )?;
            notes.add_at(written.line, &what)?;
        }
    }
    Ok(())
}

/// Adds a warning for each attribute of the root, which has no parent.
fn warn_root(alloc: Global, notes: &mut Notes<'_>, written: &Written<'_>) -> Result<(), NoMemory> {
    let name = written.name;
    for (attribute, is_written, _) in listed(written.attrs, NOTHING) {
        if is_written {
            let what = format!(in alloc;
                "{attribute} of {name} has no effect: no node is above it"
            )?;
            notes.add_at(written.line, &what)?;
        }
    }
    Ok(())
}

/// Adds a warning for each attribute of a child or class that has no effect.
fn warn_of(
    alloc: Global,
    notes: &mut Notes<'_>,
    written: &Written<'_>,
    above: Option<Above<'_>>,
    readers: &Readers<'_>,
) -> Result<(), NoMemory> {
    match above {
        Some(above) => warn_unread(alloc, notes, written, above, readers.reads(above.using)),
        None => warn_root(alloc, notes, written),
    }
}

/// Adds a warning for each attribute of a statement that has no effect.
fn warn_of_statement(
    alloc: Global,
    notes: &mut Notes<'_>,
    entry: &(u32, Statement),
    tree: &Tree<'_>,
    readers: &Readers<'_>,
) -> Result<(), NoMemory> {
    let line = entry.0;
    match &entry.1 {
        Statement::Class(name, attrs, _) | Statement::Filter(name, attrs, _) => {
            let (name, attrs) = (name.as_str(), *attrs);
            let written = Written { line, name, attrs };
            warn_of(alloc, notes, &written, tree.leaf_of(name), readers)
        }
        Statement::Leaf(name, _, attrs, _, _) | Statement::Node(name, _, attrs, _, _) => {
            let (name, attrs) = (name.as_str(), *attrs);
            let written = Written { line, name, attrs };
            warn_of(alloc, notes, &written, tree.parent_of(name), readers)
        }
        _ => Ok(()),
    }
}

/// Adds a warning for each attribute without effect. Fails if out of memory.
pub fn warn_of_attributes(
    alloc: Global,
    notes: &mut Notes<'_>,
    entries: &[(u32, Statement)],
) -> Result<(), NoMemory> {
    let tree = Tree::of(alloc, entries)?;
    let readers = Readers::of(alloc, entries)?;
    for entry in entries {
        warn_of_statement(alloc, notes, entry, &tree, &readers)?;
    }
    Ok(())
}
