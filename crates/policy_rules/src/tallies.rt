//! Counts how often names are listed.
ghost use Rattle.std.specs.Prelude.{List, ◌++◌, OnOk, IfOk};
ghost use Rattle.policy_rules.specs.Entries.{entries_of};
ghost use Rattle.policy_rules.specs.Names.{Name as Bytes, listed, children, leaf_classes};
ghost use Rattle.policy_rules.specs.KnownNames.{IsTallyOf};

use crate::tally::Tally;
use list_core::Name;
use policy_text_defs::Statement;
use std::alloc::{AllocError, Global};

/// Counts the names of one list. The error means out of memory.
fn tally_names<'a>(tally: &mut Tally<'a>, names: &'a [Name]) -> Result<(), AllocError>
    ensures more { (all : List Bytes) → IsTallyOf tally.old all →
        OnOk result (IsTallyOf tally.new (all ++ names.entry.now)) }
{
    for name in names {
        tally.add(name.as_str())?;
    }
    Ok(())
}

/// Counts how often nodes list each name as a child. The error means out of memory.
pub fn tally_children<'a>(
    alloc: Global,
    lines: &'a [(u32, Statement)],
) -> Result<Tally<'a>, AllocError>
    ensures tally { IfOk result (λ t. IsTallyOf t (listed children (entries_of lines.entry.now))) }
{
    let mut tally = Tally::new(alloc);
    for (_, statement) in lines {
        if let Statement::Node(_, _, _, _, children) = statement {
            tally_names(&mut tally, children.as_slice())?;
        }
    }
    Ok(tally)
}

/// Counts how often leaves list each class. The error means out of memory.
pub fn tally_classes<'a>(
    alloc: Global,
    lines: &'a [(u32, Statement)],
) -> Result<Tally<'a>, AllocError>
    ensures tally { IfOk result (λ t. IsTallyOf t (listed leaf_classes
        (entries_of lines.entry.now))) }
{
    let mut tally = Tally::new(alloc);
    for (_, statement) in lines {
        if let Statement::Leaf(_, _, _, _, classes) = statement {
            tally_names(&mut tally, classes.as_slice())?;
        }
    }
    Ok(tally)
}
