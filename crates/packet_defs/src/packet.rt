//! A packet that arrives, and a packet that departed.
use rank_defs::FlowKey;

/// A packet that arrives.
#[derive(Clone, Copy, PartialEq, Eq, Debug)]
pub struct Packet {
    /// Its number in the capture, from 1.
    pub number: u64,
    /// The class that the policy assigns to it.
    pub class: u32,
    /// Its original length in bytes.
    pub len: u32,
    /// Its capture timestamp, in nanoseconds.
    pub moment: u64,
    pub flow: FlowKey,
}

/// A packet that departed.
#[derive(Clone, Copy, PartialEq, Eq, Debug)]
pub struct Departed {
    /// Its number in the capture, from 1.
    pub packet: u64,
    pub class: u32,
    /// The number of the leaf, in preorder from the root.
    pub leaf: u32,
    /// Its original length in bytes.
    pub len: u32,
}
