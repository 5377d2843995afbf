//! Laws of well-formed trees.
ghost use Rattle.tree_defs.specs.Laws.{WellFormedAtEachInnerNode, EmptyTreesAreWellFormed, PushesKeepWellFormed, PopsKeepWellFormed, NothingIsPoppedFromAnEmptyRoot, RootsHaveAnEntryForEachPacket};

/// A tree is well formed exactly if each inner node's queue contains each child's index as often as
/// the child has packets, and nothing else.
pub fn well_formed_at_each_inner_node()
    ensures { WellFormedAtEachInnerNode }
{}

/// A tree of empty queues is well formed.
pub fn empty_trees_are_well_formed()
    ensures { EmptyTreesAreWellFormed }
{}

/// A push to a leaf keeps a tree well formed.
pub fn pushes_keep_well_formed()
    ensures { PushesKeepWellFormed }
{}

/// A pop keeps a tree well formed.
pub fn pops_keep_well_formed()
    ensures { PopsKeepWellFormed }
{}

/// A pop of a well-formed tree returns nothing exactly if the root's queue is empty.
pub fn nothing_is_popped_from_an_empty_root()
    ensures { NothingIsPoppedFromAnEmptyRoot }
{}

/// The root's queue of a well-formed tree has as many entries as the leaves have packets.
pub fn roots_have_an_entry_for_each_packet()
    ensures { RootsHaveAnEntryForEachPacket }
{}
