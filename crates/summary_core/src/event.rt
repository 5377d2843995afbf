//! An event of a run, for one packet.

/// The times of a packet that departed from a link.
#[derive(Clone, Copy, PartialEq, Eq, Debug)]
pub struct Times {
    /// The time from its timestamp to its start, in nanoseconds.
    pub delay: u64,
    /// The time at which its last byte is sent, in nanoseconds.
    pub finish: u128,
}

/// An event of a run, for one packet.
#[derive(Clone, Copy, PartialEq, Eq, Debug)]
pub enum PacketEvent {
    /// It arrived at its leaf, with this length in bytes and this timestamp in nanoseconds.
    Arrived(u32, u64),
    /// It departed, with this length in bytes, and with its times if a link sends it.
    Departed(u32, Option<Times>),
    /// It was dropped at its leaf.
    Dropped,
}
