//! What a run writes.

/// What a run writes about its packets.
#[derive(Clone, Copy, PartialEq, Eq, Debug)]
pub enum View {
    /// A line for each event.
    Report,
    /// A JSON line for each event.
    Json,
    /// Sums of all packets, of each leaf and of each class.
    Summary,
    /// The same sums as a JSON object.
    JsonSummary,
}
