//! Laws of the packets queued in a tree.
ghost use Rattle.tree_defs.specs.Laws.{EmptyTreesHoldNothing, PushesAddOne, PopsTakeOne, PopsLeadToLeaves, PushesAddThePacket, PopsTakeThePacket, PushesPutAtTheLeaf, PopsTakeAtTheLeaf};

/// A tree of empty queues has its topology and contains no packets.
pub fn empty_trees_hold_nothing()
    ensures { EmptyTreesHoldNothing }
{}

/// A push to a leaf increases the size by one.
pub fn pushes_add_one()
    ensures { PushesAddOne }
{}

/// A pop decreases the size by one.
pub fn pops_take_one()
    ensures { PopsTakeOne }
{}

/// A pop follows a path to a leaf, and takes a rank at each node on the path.
pub fn pops_lead_to_leaves()
    ensures { PopsLeadToLeaves }
{}

/// A push adds exactly its packet, at its leaf.
pub fn pushes_add_the_packet()
    ensures { PushesAddThePacket }
{}

/// A pop removes exactly its packet, once, from its leaf.
pub fn pops_take_the_packet()
    ensures { PopsTakeThePacket }
{}

/// Among the leaves' queues, a push changes only that of its leaf.
pub fn pushes_put_at_the_leaf()
    ensures { PushesPutAtTheLeaf }
{}

/// A pop dequeues from the queue of its leaf, and changes no other leaf's queue.
pub fn pops_take_at_the_leaf()
    ensures { PopsTakeAtTheLeaf }
{}
