//! The inputs of a transaction's step.

/// The greatest `prio`.
pub const MAX_PRIO: u32 = 65_535;

/// The greatest `weight`. The least is 1.
pub const MAX_WEIGHT: u32 = 65_535;

/// The greatest `slack`, in nanoseconds.
pub const MAX_SLACK: u64 = 1_000_000_000_000;

/// The flow of a packet: IP version, source and destination address, protocol and ports. Absent
/// header fields are 0, so all packets without an IP header form one flow.
#[derive(Clone, Copy, PartialEq, Eq, Hash, Debug)]
pub struct FlowKey {
    pub version: u8,
    pub source: u128,
    pub target: u128,
    pub proto: u8,
    pub sport: u16,
    pub dport: u16,
}

/// The child or flow whose `each` variables a step uses: a child at an inner node, a flow at a
/// leaf.
#[derive(Clone, Copy, PartialEq, Eq, Debug)]
pub enum Who {
    Child(u32),
    Flow(FlowKey),
}

/// The numbers that a step reads and never writes.
#[derive(Clone, Copy, PartialEq, Eq, Debug)]
pub struct Env {
    /// The packet's original length in bytes.
    pub len: u32,
    /// The largest timestamp of the packets that have arrived so far, in nanoseconds.
    pub now: u64,
    /// The priority of the next child on the path, or of the packet's class at a leaf.
    pub prio: u32,
    /// The weight of the next child on the path, or of the packet's class at a leaf.
    pub weight: u32,
    /// The slack of the next child on the path, or of the packet's class at a leaf, in nanoseconds.
    pub slack: u64,
}
