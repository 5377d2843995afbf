//! The limits of a node.

/// The limits of a node or leaf, each at least 1; `None` is no limit. They count the packets in the
/// leaf, or in all leaves below the node.
#[derive(Clone, Copy, PartialEq, Eq, Debug)]
pub struct Limits {
    /// The most packets.
    pub packets: Option<u32>,
    /// The most bytes, by the packets' original lengths.
    pub bytes: Option<u32>,
    /// The most packets of one flow.
    pub per_flow: Option<u32>,
}
