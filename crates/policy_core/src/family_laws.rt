//! Laws of the graph of nodes, for statements that pass the clauses.
ghost use Rattle.policy_core.specs.FamilyLaws.{FamiliesAreForests, FamiliesAreShallow};

/// If each node has a single parent and there is no cycle, the graph is a forest below the root.
pub fn families_are_forests()
    ensures law { FamiliesAreForests }
{}

/// If also no name is too deep, no node of the graph is.
pub fn families_are_shallow()
    ensures law { FamiliesAreShallow }
{}
