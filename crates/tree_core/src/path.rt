//! A path from the root to a leaf, with the rank at each step.
use list_core::List;

/// A path from the root of a tree to a leaf: the child's index and the rank at each inner node,
/// from the root down, and the rank at the leaf.
#[derive(Drop)]
pub struct Path {
    pub steps: List<(u32, u64)>,
    pub last: u64,
}
