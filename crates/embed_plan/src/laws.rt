//! Laws about a plan.
ghost use Rattle.embed_plan.specs.Laws.{PoliciesHaveOnePlan, PoliciesHaveAPlan};

/// A policy and a target have only one plan.
pub fn policies_have_one_plan()
    ensures law { PoliciesHaveOnePlan }
{}

/// A policy and a target have a plan.
pub fn policies_have_a_plan()
    ensures law { PoliciesHaveAPlan }
{}
