//! Laws of transactions. Each is the contract of a function that does nothing.

ghost use Rattle.rank_defs.specs.Laws.{SafePartsAreInside, SafePartsAreNarrow, SafeValuesFit, CheckedAreTame, CheckedPushesAreSafe, CheckedPopsAreSafe, FirstStatesAreInRange, PopsKeepRanks, StepsChangeOne, StepsLeaveOthers, StepsRespectStates, ChecksFindAllFaults, RefusalsNameOneLine, BuiltinsAreChecked};

/// If the checks pass on the declared ranges, they hold for all values in those ranges.
pub fn safe_parts_are_inside()
    ensures inside { SafePartsAreInside }
    ensures narrow { SafePartsAreNarrow }
    ensures fits { SafeValuesFit }
{}

/// A checked transaction runs safely from every state in range, and keeps the state in range.
pub fn checked_steps_are_safe()
    ensures tame { CheckedAreTame }
    ensures pushes { CheckedPushesAreSafe }
    ensures pops { CheckedPopsAreSafe }
    ensures start { FirstStatesAreInRange }
{}

/// A step changes only the variables of the node and of one child or flow.
pub fn steps_change_one()
    ensures one { StepsChangeOne }
    ensures others { StepsLeaveOthers }
    ensures ranks { PopsKeepRanks }
    ensures states { StepsRespectStates }
{}

/// A list of transactions is either checked, or has an error with exactly one line number: the
/// least.
pub fn checks_find_all_faults()
    ensures faults { ChecksFindAllFaults }
    ensures lines { RefusalsNameOneLine }
{}

/// The built-in transactions pass the checks.
pub fn builtins_are_checked()
    ensures { BuiltinsAreChecked }
{}
