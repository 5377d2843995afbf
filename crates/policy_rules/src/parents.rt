//! Checks the parent of each node and leaf, and the root.
ghost use Rattle.std.specs.Prelude.{◌≡◌, List, true, OnOk, IfErr};
ghost use Rattle.policy_text_defs.specs.Sense.{sense_of};
ghost use Rattle.policy_rules.specs.Entries.{entries_of, AreRising};
ghost use Rattle.policy_rules.specs.Names.{Name, listed, children};
ghost use Rattle.policy_rules.specs.Clauses.{IsFirstLine, NoLine, IsOrphan, is_orphan, has_root};
ghost use Rattle.policy_rules.specs.Accepted.{AreComputable, IsFault};
ghost use Rattle.policy_rules.specs.KnownNames.{IsTallyOf};
ghost use Rattle.policy_rules.specs.Statements.{is_root};

use crate::PolicyFault;
use crate::tallies::tally_children;
use crate::tally::Tally;
use policy_text_defs::Statement;
use std::alloc::Global;

/// Returns whether a statement declares a node or leaf that isn't the root and isn't listed exactly
/// once.
fn is_orphan(tally: &Tally, statement: &Statement) -> bool
    ensures { (all : List Name) → IsTallyOf tally.now all → result ≡
        is_orphan all (sense_of statement.now) }
{
    match statement {
        Statement::Leaf(name, ..) | Statement::Node(name, ..) => {
            name.as_str() != "root" && !tally.is_once(name.as_str())
        }
        _ => false,
    }
}

/// Returns the first line whose node or leaf isn't the root and isn't listed exactly once.
fn first_orphan(lines: &[(u32, Statement)], tally: &Tally) -> Option<u32>
    requires rising { AreRising (entries_of lines.now) }
    requires tally { IsTallyOf tally.now (listed children (entries_of lines.now)) }
    ensures first { IsFirstLine (IsOrphan (entries_of lines.now)) (entries_of lines.now) result }
{
    for (line, statement) in lines {
        if is_orphan(tally, statement) {
            return Some(*line);
        }
    }
    None
}

/// Returns whether a statement declares the root.
fn is_root(statement: &Statement) -> bool
    ensures { result ≡ is_root (sense_of statement.now) }
{
    match statement {
        Statement::Leaf(name, ..) | Statement::Node(name, ..) => name.as_str() == "root",
        _ => false,
    }
}

/// Returns whether a node or leaf is named `root`.
fn has_root(lines: &[(u32, Statement)]) -> bool
    ensures { result ≡ has_root (entries_of lines.now) }
{
    lines.iter().any(|(_, statement)| is_root(statement))
}

/// Rejects a node or leaf other than `root` that isn't listed as a child exactly once. Then rejects
/// a policy without a root.
pub fn check_parents(alloc: Global, lines: &[(u32, Statement)]) -> Result<(), PolicyFault>
    requires rising { AreRising (entries_of lines.now) }
    ensures parents { OnOk result (NoLine (IsOrphan (entries_of lines.now))
        (entries_of lines.now)) }
    ensures root { OnOk result (has_root (entries_of lines.now) ≡ true) }
    ensures fault { IfErr result (λ f. AreComputable (entries_of lines.now) →
        IsFault (entries_of lines.now) f) }
{
    let tally = tally_children(alloc, lines)?;
    if let Some(line) = first_orphan(lines, &tally) {
        return Err(PolicyFault::Parents(line));
    }
    if !has_root(lines) {
        return Err(PolicyFault::NoRoot);
    }
    Ok(())
}
