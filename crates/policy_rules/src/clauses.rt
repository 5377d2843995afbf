//! Checks the first four clauses and collects the names that statements declare.
ghost use Rattle.std.specs.Prelude.{◌≤◌, IfOk, OnOk, IfErr};
ghost use Rattle.policy_rules.specs.Accepted.{AreFew, IsFault};
ghost use Rattle.policy_rules.specs.Codes.{code_of};
ghost use Rattle.policy_rules.specs.Entries.{entries_of, AreRising};
ghost use Rattle.policy_rules.specs.Kept.{AreSpaces};

use crate::PolicyFault;
use crate::known::first_unknown;
use crate::placing::first_misplaced;
use crate::room::first_beyond;
use crate::spaces::{Spaces, declared};
use policy_text_defs::Statement;
use std::alloc::Global;

/// Returns the names that statements declare, if none fails one of the first four clauses of an
/// accepted policy.
pub fn declarations<'a>(
    alloc: Global,
    lines: &'a [(u32, Statement)],
) -> Result<Spaces<'a>, PolicyFault>
    requires rising { AreRising (entries_of lines.now) }
    ensures spaces { IfOk result (AreSpaces (entries_of lines.entry.now)) }
    ensures few { OnOk result (AreFew (entries_of lines.entry.now)) }
    ensures fault { IfErr result (IsFault (entries_of lines.entry.now)) }
    ensures early { IfErr result (λ f. code_of f ≤ 4) }
{
    if let Some(line) = first_misplaced(lines) {
        return Err(PolicyFault::Misplaced(line));
    }
    let spaces = declared(alloc, lines)?;
    if let Some(line) = first_unknown(alloc, lines, &spaces)? {
        return Err(PolicyFault::Unknown(line));
    }
    if let Some(line) = first_beyond(lines) {
        return Err(PolicyFault::TooMany(line));
    }
    Ok(spaces)
}
