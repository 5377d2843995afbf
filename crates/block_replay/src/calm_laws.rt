//! Laws of calm policies: they never spill when laid into a complete tree of queues. Begin with
//! specs/CalmPolicies.antt.
ghost use Rattle.block_replay.specs.CalmLaws.{CalmAtEachNode, CalmPoliciesNeverSpill, CalmRunsNeverSpill};

/// A policy is calm exactly if it is calm at each of its nodes.
pub fn calm_at_each_node()
    ensures law { CalmAtEachNode }
{}

/// If a calm policy is laid by a good map, no push spills.
pub fn calm_policies_never_spill()
    ensures law { CalmPoliciesNeverSpill }
{}

/// No push among the events of such a policy spills.
pub fn calm_runs_never_spill()
    ensures law { CalmRunsNeverSpill }
{}
