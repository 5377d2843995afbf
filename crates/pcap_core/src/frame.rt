//! A record without its captured bytes.
/// A record of a capture, without its captured bytes.
#[derive(Clone, Copy, PartialEq, Eq, Debug)]
pub struct Frame {
    /// The record's number in the capture, counted from 1.
    pub number: u64,
    /// The capture timestamp, in nanoseconds.
    pub moment: u64,
    /// The number of captured bytes of the packet.
    pub captured: u32,
    /// The packet's original length in bytes.
    pub len: u32,
}

/// A packet with its own link type, without its captured bytes.
#[derive(Clone, Copy, PartialEq, Eq, Debug)]
pub struct LinkedFrame {
    /// Its number among the packets, its timestamp and its lengths.
    pub frame: Frame,
    /// Its link type.
    pub link: u16,
}
