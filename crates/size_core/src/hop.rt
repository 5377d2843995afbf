//! The nodes of the target that a packet passes.
/// A node on the path of a packet.
#[derive(Clone, Copy)]
pub(crate) struct Hop {
    /// The node's index.
    pub node: usize,
    /// The index of its rank among the ranks of the packet.
    pub step: u64,
    /// The next digit of the path, or `None` at the leaf.
    pub digit: Option<u32>,
}
