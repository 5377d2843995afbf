//! Bounds on numbers of a packet, one for each test of a class.
ghost use Rattle.std.specs.Prelude.{◌<◌};

/// Bounds the number at an index by a minimum and a maximum.
#[derive(Clone, Copy)]
pub(crate) struct Bounds {
    pub(crate) place: usize,
    pub(crate) low: u64,
    pub(crate) high: u64,
    ghost there: { place < 9 },
}

/// The bounds of a class, one for each test. A class without tests has bounds that every packet
/// meets.
#[derive(Drop)]
pub(crate) struct Prepared {
    pub(crate) first: Bounds,
    pub(crate) others: Vec<Bounds>,
}
