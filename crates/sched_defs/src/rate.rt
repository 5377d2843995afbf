//! The rate of a link.
ghost use Rattle.std.specs.Prelude.{◌≡◌};
ghost use Rattle.sched_defs.specs.SendTime.{plain_rate};

/// The rate of a link, and what each packet takes on it beyond its length.
#[derive(Clone, Copy, PartialEq, Eq, Debug)]
pub struct LinkRate {
    /// Bytes per second, from 1 to 1,000,000,000,000.
    pub bytes: u64,
    /// Bytes that the link takes for each packet besides its original length, at most 65,535. On
    /// Ethernet, the preamble, the frame check sequence and the gap between frames are 24.
    pub overhead: u32,
}

impl LinkRate {
    /// Returns the rate of a link that takes the bytes of each packet and no others.
    pub fn plain(bytes: u64) -> LinkRate
        ensures { result ≡ plain_rate bytes }
    {
        LinkRate { bytes, overhead: 0 }
    }
}
