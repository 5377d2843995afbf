//! Checks the limits of leaves, which version 1 doesn't have.
ghost use Rattle.std.specs.Prelude.{◌≡◌, OnOk, IfErr};
ghost use Rattle.policy_text_defs.specs.Sense.{sense_of};
ghost use Rattle.policy_rules.specs.Entries.{entries_of, AreRising};
ghost use Rattle.policy_rules.specs.Clauses.{IsFirstLine, NoLine, NeedsVersion2, has_limit, version_of};
ghost use Rattle.policy_rules.specs.Accepted.{HaveCatchAll, IsFault};

use crate::PolicyFault;
use policy_text_defs::Statement;

/// Returns the version that the first statement gives, or 0 if it gives none.
pub fn version(lines: &[(u32, Statement)]) -> u32
    ensures { result ≡ version_of (entries_of lines.now) }
{
    match lines.first() {
        Some((_, Statement::Version(version))) => *version,
        _ => 0,
    }
}

/// Returns whether a statement declares a leaf with a limit.
fn has_limit(statement: &Statement) -> bool
    ensures { result ≡ has_limit (sense_of statement.now) }
{
    match statement {
        Statement::Leaf(_, _, _, queueing, _) => queueing.packets.is_some(),
        _ => false,
    }
}

/// Returns the first line with a limit, if the policy is of version 1.
fn first_ahead(lines: &[(u32, Statement)]) -> Option<u32>
    requires rising { AreRising (entries_of lines.now) }
    ensures first { IsFirstLine (NeedsVersion2 (entries_of lines.now)) (entries_of lines.now)
        result }
{
    if version(lines) != 1 {
        return None;
    }
    for (line, statement) in lines {
        if has_limit(statement) {
            return Some(*line);
        }
    }
    None
}

/// Rejects a limit in a policy of version 1.
pub fn check_limits(lines: &[(u32, Statement)]) -> Result<(), PolicyFault>
    requires rising { AreRising (entries_of lines.now) }
    ensures limits { OnOk result (NoLine (NeedsVersion2 (entries_of lines.now))
        (entries_of lines.now)) }
    ensures fault { IfErr result (λ f. HaveCatchAll (entries_of lines.now) →
        IsFault (entries_of lines.now) f) }
{
    match first_ahead(lines) {
        Some(line) => Err(PolicyFault::OldVersion(line)),
        None => Ok(()),
    }
}
