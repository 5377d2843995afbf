//! The kinds of taps, and a dropped packet.

/// The kind of a tap, by what it counts.
#[derive(Clone, Copy, PartialEq, Eq, Debug)]
pub enum TapKind {
    /// Departed packets, and their bytes.
    Bytes,
    /// Packets that departed after a packet with the same or a greater number.
    Order,
    /// The numbers of the first packets to depart, up to this limit.
    First(u32),
    /// Dropped packets, and their bytes.
    Drops,
}

impl TapKind {
    ghost use Rattle.std.specs.Prelude.{◌≡◌};
    ghost use Rattle.tap_core.specs.Lines.{name_of};

    /// Returns the word for taps of this kind, on the command line and in their lines.
    pub fn name(self) -> &'static str
        ensures { result.now ≡ name_of self }
    {
        match self {
            TapKind::Bytes => "bytes",
            TapKind::Order => "order",
            TapKind::First(_) => "first",
            TapKind::Drops => "drops",
        }
    }
}

/// Whether a tap needs more departures.
#[derive(Clone, Copy, PartialEq, Eq, Debug)]
pub enum Seen {
    More,
    Done,
}

/// A packet that was dropped because its leaf was full.
#[derive(Clone, Copy, PartialEq, Eq, Debug)]
pub struct Dropped {
    /// Its index in the capture, counted from 1.
    pub packet: u64,
    pub class: u32,
    /// The number of the leaf, in preorder from the root.
    pub leaf: u32,
    /// Its original length in bytes.
    pub len: u32,
}
