//! Laws of forests and their trees.
ghost use Rattle.tree_graph.specs.Laws.{NodesAreReached, NodesHaveOneDepth, TreesHaveEachNodeOnce, TreesHaveAllNodes, GraphsHaveOneTree};

/// Each node of a forest is reached from the root in some number of steps.
pub fn nodes_are_reached()
    ensures law { NodesAreReached }
{}

/// All paths from the root to a node have the same length.
pub fn nodes_have_one_depth()
    ensures law { NodesHaveOneDepth }
{}

/// The tree below the root of a forest contains each node once.
pub fn trees_have_each_node_once()
    ensures law { TreesHaveEachNodeOnce }
{}

/// The tree below the root of a forest has as many nodes as the forest.
pub fn trees_have_all_nodes()
    ensures law { TreesHaveAllNodes }
{}

/// A graph has at most one tree below a node.
pub fn graphs_have_one_tree()
    ensures law { GraphsHaveOneTree }
{}
