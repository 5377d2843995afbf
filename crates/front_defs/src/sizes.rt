//! The numbers that the options of `size` give.

/// The widths of an entry's parts in memory, in bits.
#[derive(Clone, Copy, PartialEq, Eq, Debug)]
pub struct Widths {
    pub rank: u32,
    /// The rest of the entry.
    pub entry: u32,
}

/// The limits of a node, and the widths of its entries.
#[derive(Clone, Copy, PartialEq, Eq, Debug)]
pub struct Sizes {
    /// The most entries of a node at once.
    pub entries: Option<u64>,
    /// The most bits of a rank.
    pub bits: Option<u32>,
    pub widths: Option<Widths>,
}
