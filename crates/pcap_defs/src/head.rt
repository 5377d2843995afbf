//! The values in the file header of a capture.
/// The values in the file header of a capture (libpcap 2.4, pcap-savefile).
#[derive(Clone, Copy, PartialEq, Eq, Debug)]
pub struct Head {
    /// The link type: the low 16 bits of its field.
    pub link: u16,
    /// Whether the fraction of a second counts nanoseconds. Otherwise it counts microseconds.
    pub nano: bool,
    /// Whether numbers are big-endian.
    pub big: bool,
}
