//! How large the queues of a target got.
use crate::limits::Overflow;
use list_core::Name;

/// The use of the rank stores of a node. A node has one store for each child, a leaf has one.
#[derive(Clone, Copy, PartialEq, Eq, Debug)]
pub struct StoreUse {
    /// The greatest number of stores with an entry.
    pub heads: u64,
    /// The greatest number of entries in one store.
    pub stored: u64,
    /// The greatest number of spilled entries.
    pub spilled: u64,
    /// The number of pushes that spilled.
    pub spills: u64,
}

/// The use of a node of the target.
#[derive(Drop)]
pub struct NodeSize {
    /// The digits of the path to the node, from the root down.
    pub address: Vec<u32>,
    /// The name of the policy's node that it serves. A transit node serves none.
    pub name: Option<Name>,
    pub pushes: u64,
    /// The greatest number of entries.
    pub most: u64,
    /// The greatest rank pushed.
    pub top: u64,
    /// The greatest difference between the ranks of two entries that were queued together.
    pub span: u64,
    /// The use of its rank stores, if they were asked for.
    pub stores: Option<StoreUse>,
}

/// How large the queues of a target got in a run.
#[derive(Drop)]
pub struct Sizes {
    /// The nodes that a packet passed, in the order of the policy's nodes. A node comes after its
    /// parent.
    pub nodes: Vec<NodeSize>,
    /// The greatest number of entries in all nodes together.
    pub entries: u128,
    /// The first push that passed a limit.
    pub overflow: Option<Overflow>,
}
