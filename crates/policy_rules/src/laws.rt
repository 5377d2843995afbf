//! Laws of errors and of classic statements.
ghost use Rattle.policy_rules.specs.Laws.{AcceptedHaveNoFault, HaveOneFault, ClassicStatementsGiveClassicPolicies};

/// Statements have at most one error apart from `NoMemory`, and accepted statements have none.
pub fn statements_have_one_fault()
    ensures fault { HaveOneFault }
    ensures accepted { AcceptedHaveNoFault }
{}

/// If each statement is of the classic edition, only leaves of the policy have limits, these are on
/// packets alone, and flows are those of the five fields.
pub fn classic_statements_give_classic_policies()
    ensures law { ClassicStatementsGiveClassicPolicies }
{}
