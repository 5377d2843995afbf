//! The values of an interface block.
/// The unit in which an interface counts time (draft-ietf-opsawg-pcapng, 4.2, if_tsresol).
#[derive(Clone, Copy, PartialEq, Eq, Debug)]
pub enum Unit {
    /// 10^-v seconds, v at most 127.
    Decimal(u8),
    /// 2^-v seconds, v at most 127.
    Binary(u8),
}

/// The values of an interface block (draft-ietf-opsawg-pcapng, 4.2).
#[derive(Clone, Copy, PartialEq, Eq, Debug)]
pub struct Interface {
    /// The link type of its packets.
    pub link: u16,
    /// The most captured bytes of a packet, or 0 for no limit.
    pub snapshot: u32,
    /// The unit of its timestamps.
    pub unit: Unit,
}
