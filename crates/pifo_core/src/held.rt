//! A queued pair with its sequence number.
/// A queued pair with its sequence number: the number of pushes before its own. The order of the
/// fields gives the dequeue order.
#[derive(Clone, Copy, Debug, PartialEq, Eq, PartialOrd, Ord)]
pub struct Held {
    pub rank: u64,
    pub arrival: u64,
    pub value: u64,
}

/// The same entry in 16 bytes, if the sequence number and the value each fit in 32 bits.
#[derive(Clone, Copy)]
pub struct Brief {
    pub rank: u64,
    pub arrival: u32,
    pub value: u32,
}
