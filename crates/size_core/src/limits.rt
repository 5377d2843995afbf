//! Limits of a node's queue, and the first push that passes one.
/// The limits of each node's queue, if it has any.
#[derive(Clone, Copy, PartialEq, Eq, Debug)]
pub struct Limits {
    /// The greatest number of entries.
    pub entries: Option<u64>,
    /// The number of bits of a rank.
    pub bits: Option<u32>,
}

/// A limit of a node's queue.
#[derive(Clone, Copy, PartialEq, Eq, Debug)]
pub enum Limit {
    /// The number of entries.
    Entries,
    /// The number of bits of a rank.
    Bits,
}

/// A push that passed a limit of a node: the event's number, the packet's number, and the node's
/// address.
#[derive(Drop)]
pub struct Overflow {
    pub event: u64,
    pub packet: u64,
    pub address: Vec<u32>,
    pub limit: Limit,
}

/// The same with the node's index.
#[derive(Clone, Copy, PartialEq, Eq, Debug)]
pub(crate) struct Passed {
    pub event: u64,
    pub packet: u64,
    pub node: usize,
    pub limit: Limit,
}
