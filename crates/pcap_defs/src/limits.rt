//! The limits of a capture.

/// The most captured bytes that a packet may have, in both formats.
pub const MOST_CAPTURED: u32 = 262_144;
