//! Link types.

/// The link types of Ethernet and of raw IP.
const ETHERNET: u16 = 1;

const RAW: u16 = 101;

/// The version of policies that reads more link types.
const LINKS_VERSION: u32 = 3;

/// Returns whether packets with this link type have header fields under a policy of version 3.
fn has_known_fields(link: u16) -> bool {
    matches!(
        link,
        ETHERNET | RAW | 0 | 12 | 14 | 108 | 113 | 228 | 229 | 276
    )
}

/// Returns whether packets with this link type have header fields under a policy of this version.
pub(crate) fn has_fields(version: u32, link: u16) -> bool {
    if version < LINKS_VERSION {
        link == ETHERNET || link == RAW
    } else {
        has_known_fields(link)
    }
}

/// Returns which link types a policy of this version reads, for a message on one that it doesn't
/// read.
pub(crate) fn links_read(version: u32, link: u16) -> &'static str {
    if LINKS_VERSION <= version {
        "only Ethernet, IP, loopback and Linux cooked captures are read"
    } else if has_known_fields(link) {
        "only Ethernet (1) and raw IP (101) are read; a policy of version 3 reads this one too"
    } else {
        "only Ethernet (1) and raw IP (101) are read"
    }
}

/// Returns the name of a link type, for a message.
pub fn link_name(link: u16) -> &'static str {
    match link {
        0 => "BSD loopback",
        1 => "Ethernet",
        9 => "PPP",
        12 | 14 => "raw IP of another system",
        101 => "raw IP",
        105 => "IEEE 802.11",
        108 => "OpenBSD loopback",
        113 => "Linux cooked, version 1",
        119 | 127 | 163 => "IEEE 802.11 with radio information",
        147..=162 => "for private use",
        192 => "per-packet information",
        195 | 215 | 230 => "IEEE 802.15.4",
        220 | 189 | 249 => "USB",
        227 => "CAN",
        228 => "IPv4 alone",
        229 => "IPv6 alone",
        239 => "netfilter log",
        276 => "Linux cooked, version 2",
        _ => "not Ethernet or raw IP",
    }
}
