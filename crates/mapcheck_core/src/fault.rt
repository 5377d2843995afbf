//! Errors of a given map.
ghost use Rattle.std.specs.Prelude.{◌≡◌};
ghost use Rattle.mapcheck_core.specs.MapFaults.{code_of, place_of};

use std::alloc::{AllocError, AllocFailed};

/// Says why a text isn't a map, or a map isn't an embedding. Lines are counted from 1, and nodes
/// from 0 in preorder.
#[derive(Clone, Copy, PartialEq, Eq, Debug)]
pub enum MapFault {
    /// The text is too long.
    TooLong,
    /// This line is malformed.
    Line(u32),
    /// The name on this line isn't a node's.
    Unknown(u32),
    /// The name on this line is also on an earlier line.
    Twice(u32),
    /// No line names this node.
    Missing(u32),
    /// The image on this line isn't an address.
    NoAddress(u32),
    /// The root's image, given on this line, isn't the root.
    Root(u32),
    /// This line gives a leaf an image that isn't a leaf.
    Leaf(u32),
    /// One of these nodes' addresses is a prefix of the other's but its image isn't, or the other
    /// way round.
    Prefix(u32, u32),
    NoMemory,
}

impl MapFault {
    /// Returns the error's number in a report, or 0 if out of memory.
    pub fn code(&self) -> u32
        ensures { result ≡ code_of self.now }
    {
        match self {
            MapFault::TooLong => 1,
            MapFault::Line(_) => 2,
            MapFault::Unknown(_) => 3,
            MapFault::Twice(_) => 4,
            MapFault::Missing(_) => 5,
            MapFault::NoAddress(_) => 6,
            MapFault::Root(_) => 7,
            MapFault::Leaf(_) => 8,
            MapFault::Prefix(_, _) => 9,
            MapFault::NoMemory => 0,
        }
    }

    /// Returns the number of the line with the error, or of the node that no line names. Returns 0
    /// if the error holds neither.
    pub fn place(&self) -> u32
        ensures { result ≡ place_of self.now }
    {
        match self {
            MapFault::Line(place)
            | MapFault::Unknown(place)
            | MapFault::Twice(place)
            | MapFault::Missing(place)
            | MapFault::NoAddress(place)
            | MapFault::Root(place)
            | MapFault::Leaf(place) => *place,
            MapFault::TooLong | MapFault::Prefix(_, _) | MapFault::NoMemory => 0,
        }
    }
}

impl From<AllocError> for MapFault {
    ghost use Rattle.std.specs.Prelude.{◌≡◌};
    ghost use Rattle.mapcheck_core.specs.declared.fault.MapFault.TheVariants.{NoMemory};

    ghost from_gives = { λ _ e. e ≡ NoMemory };

    fn from(_: AllocError) -> Self {
        MapFault::NoMemory
    }
}

impl<T: Drop> From<AllocFailed<T>> for MapFault {
    ghost use Rattle.std.specs.Prelude.{◌≡◌};
    ghost use Rattle.mapcheck_core.specs.declared.fault.MapFault.TheVariants.{NoMemory};

    ghost from_gives = { λ _ e. e ≡ NoMemory };

    fn from(_: AllocFailed<T>) -> Self {
        MapFault::NoMemory
    }
}
