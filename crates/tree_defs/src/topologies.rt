//! Laws of topologies and addresses.
ghost use Rattle.tree_defs.specs.Laws.{LeafAddressesLeadToLeaves, PrefixesComeBefore, CompleteTreesHaveAllAddresses, CompleteTreesHaveDeepLeaves, OneShapeIsOneTopology, PushesKeepTheTopology, PopsKeepTheTopology};

/// A leaf address is exactly an address at which there is a leaf.
pub fn leaf_addresses_lead_to_leaves()
    ensures { LeafAddressesLeadToLeaves }
{}

/// The remainder of an address after a prefix is exactly the part after that prefix.
pub fn prefixes_come_before()
    ensures { PrefixesComeBefore }
{}

/// The addresses of a complete tree are all lists of at most as many digits as it has levels, each
/// below its level's arity.
pub fn complete_trees_have_all_addresses()
    ensures { CompleteTreesHaveAllAddresses }
{}

/// The leaf addresses of a complete tree are its addresses of full length.
pub fn complete_trees_have_deep_leaves()
    ensures { CompleteTreesHaveDeepLeaves }
{}

/// Two trees have the same shape exactly if their topologies are equal.
pub fn one_shape_is_one_topology()
    ensures { OneShapeIsOneTopology }
{}

/// A push keeps the topology.
pub fn pushes_keep_the_topology()
    ensures { PushesKeepTheTopology }
{}

/// A pop keeps the topology.
pub fn pops_keep_the_topology()
    ensures { PopsKeepTheTopology }
{}
