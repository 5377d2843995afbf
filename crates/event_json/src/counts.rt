//! How many outcomes of each kind there were.

/// The numbers of packets that arrived at their leaves, departed and were dropped, and of
/// departures that found no packet. A count that reaches 2^64 - 1 stays there.
#[derive(Clone, Copy)]
pub struct Counts {
    pub arrived: u64,
    pub departed: u64,
    pub dropped: u64,
    pub empty: u64,
}
