//! Laws of the programs that names denote.

ghost use Rattle.policy_rules.specs.Known.{KnownAreShaped, ComputableAreChecked};

/// All programs that names denote are shaped if no clause up to the limits fails, and checked if
/// they are computable.
pub fn known_programs_are_checked()
    ensures shaped { KnownAreShaped }
    ensures checked { ComputableAreChecked }
{}
