//! Checks the leaf of each class, and the class for all packets.
ghost use Rattle.std.specs.Prelude.{◌≡◌, List, true, OnOk, IfErr};
ghost use Rattle.policy_text_defs.specs.Sense.{sense_of};
ghost use Rattle.policy_rules.specs.Entries.{entries_of, AreRising};
ghost use Rattle.policy_rules.specs.Names.{Name, listed, leaf_classes};
ghost use Rattle.policy_rules.specs.Clauses.{IsFirstLine, NoLine, IsNotListedOnce, is_not_listed_once, has_catch_all};
ghost use Rattle.policy_rules.specs.Accepted.{AreShallow, IsFault};
ghost use Rattle.policy_rules.specs.KnownNames.{IsTallyOf};

use crate::PolicyFault;
use crate::tallies::tally_classes;
use crate::tally::Tally;
use policy_text_defs::Statement;
use std::alloc::Global;

/// Returns whether a statement declares a class that isn't listed exactly once.
fn is_not_listed_once(tally: &Tally, statement: &Statement) -> bool
    ensures { (all : List Name) → IsTallyOf tally.now all → result ≡
        is_not_listed_once all (sense_of statement.now) }
{
    match statement {
        Statement::Class(name, _, _) | Statement::Filter(name, _, _) => {
            !tally.is_once(name.as_str())
        }
        _ => false,
    }
}

/// Returns the first line whose class isn't listed exactly once.
fn first_stray(lines: &[(u32, Statement)], tally: &Tally) -> Option<u32>
    requires rising { AreRising (entries_of lines.now) }
    requires tally { IsTallyOf tally.now (listed leaf_classes (entries_of lines.now)) }
    ensures first { IsFirstLine (IsNotListedOnce (entries_of lines.now)) (entries_of lines.now)
        result }
{
    for (line, statement) in lines {
        if is_not_listed_once(tally, statement) {
            return Some(*line);
        }
    }
    None
}

/// Returns whether there is a class, and the last class has no condition.
fn has_catch_all(lines: &[(u32, Statement)]) -> bool
    ensures { result ≡ has_catch_all (entries_of lines.now) }
{
    let mut found = false;
    for (_, statement) in lines {
        match statement {
            Statement::Class(_, _, conditions) => found = conditions.is_empty(),
            Statement::Filter(_, _, alternatives) => found = alternatives.is_empty(),
            _ => {}
        }
    }
    found
}

/// Rejects a class that leaves don't list exactly once. Then rejects a policy that has no class, or
/// whose last class has a condition.
pub fn check_leaves(alloc: Global, lines: &[(u32, Statement)]) -> Result<(), PolicyFault>
    requires rising { AreRising (entries_of lines.now) }
    ensures leaves { OnOk result (NoLine (IsNotListedOnce (entries_of lines.now))
        (entries_of lines.now)) }
    ensures catch_all { OnOk result (has_catch_all (entries_of lines.now) ≡ true) }
    ensures fault { IfErr result (λ f. AreShallow (entries_of lines.now) →
        IsFault (entries_of lines.now) f) }
{
    let tally = tally_classes(alloc, lines)?;
    if let Some(line) = first_stray(lines, &tally) {
        return Err(PolicyFault::ClassLeaf(line));
    }
    if !has_catch_all(lines) {
        return Err(PolicyFault::NoCatchAll);
    }
    Ok(())
}
