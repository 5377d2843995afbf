//! Laws of accepted statements. Each law is the contract of an empty function.
ghost use Rattle.policy_core.specs.PlaceLaws.{GraphsGiveTheTree, HomesGiveTheClasses, ResolvedPoliciesAreAccepted};

/// The tree of the graph of accepted statements, with nodes in place of their numbers, is the tree
/// that they declare.
pub fn graphs_give_the_tree()
    ensures law { GraphsGiveTheTree }
{}

/// If leaves list the classes, they are the leaves that the policy gives these classes.
pub fn homes_give_the_classes()
    ensures law { HomesGiveTheClasses }
{}

/// A policy that accepted statements give can be run, if it isn't too deep or too large.
pub fn resolved_policies_are_accepted()
    ensures law { ResolvedPoliciesAreAccepted }
{}
