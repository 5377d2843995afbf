//! A queued entry.
/// An entry with its arrival number: the number of pushes before its own. Entries depart in the
/// order of the fields.
#[derive(Clone, Copy, Debug, PartialEq, Eq, PartialOrd, Ord)]
pub struct Waiting {
    pub rank: u64,
    pub arrival: u64,
    pub value: u64,
}
