//! The limits of a pcapng capture.

/// The greatest total length of a block, in bytes.
pub const MOST_TOTAL: u32 = 16_777_216;

/// The most interfaces of a section.
pub const MOST_INTERFACES: usize = 1024;
