//! The type of a file that isn't a capture, or that can't be read as one, from its first bytes.

/// The most bytes of a file that are looked at to see whether it is a text.
const MOST_LOOKED_AT: usize = 512;

/// Returns the type of a file with these first bytes, and how to get a capture from it.
pub fn capture_kind(front: &[u8]) -> (&'static str, &'static str) {
    match front {
        [] => (
            "an empty file",
            "capture at least one packet, or see that the capture was written",
        ),
        [0x1f, 0x8b, ..] => ("a gzip file", "gunzip it first"),
        [0x28, 0xb5, 0x2f, 0xfd, ..] => ("a zstd file", "unzstd it first"),
        [0xfd, b'7', b'z', b'X', b'Z', ..] => ("an xz file", "unxz it first"),
        [b'B', b'Z', b'h', ..] => ("a bzip2 file", "bunzip2 it first"),
        [b'P', b'K', 3, 4, ..] => ("a zip file", "unzip it first"),
        [0x04, 0x22, 0x4d, 0x18, ..] => ("an lz4 file", "unlz4 it first"),
        [0x34, 0xcd, 0xb2, 0xa1, ..] | [0xa1, 0xb2, 0xcd, 0x34, ..] => (
            "a modified pcap file (magic number 0xA1B2CD34)",
            "editcap -F pcap FILE OUT makes a pcap file of it",
        ),
        [0x0a, 0x0d, 0x0d, 0x0a, ..] => ("a pcapng file", "see that it is whole"),
        [0xd4, 0xc3, 0xb2, 0xa1, ..]
        | [0xa1, 0xb2, 0xc3, 0xd4, ..]
        | [0x4d, 0x3c, 0xb2, 0xa1, ..]
        | [0xa1, 0xb2, 0x3c, 0x4d, ..] => ("a pcap file", "see that it is whole"),
        [b'R', b'T', b'S', b'S', ..] | [b'X', b'C', b'P', 0, ..] | [b'T', b'R', b'S', b'N', ..] => (
            "a capture of another program",
            "editcap -F pcap FILE OUT makes a pcap file of it",
        ),
        [b's', b'n', b'o', b'o', b'p', ..] => (
            "a snoop file",
            "editcap -F pcap FILE OUT makes a pcap file of it",
        ),
        [0xff, 0xfe, ..] | [0xfe, 0xff, ..] => (
            "a text file in UTF-16",
            "give a pcap or pcapng file: the argument may be at another's position",
        ),
        _ if is_text(front) => (
            "a text file",
            "give a pcap or pcapng file: the argument may be at another's position",
        ),
        _ => ("other bytes", "give a pcap or pcapng file"),
    }
}

/// Returns whether a file begins with printable ASCII, spaces, tabs and line ends.
fn is_text(front: &[u8]) -> bool {
    front.iter().take(MOST_LOOKED_AT).all(|byte| matches!(
        *byte,
        b'\t' | b'\n' | b'\r' | b' '..=b'~'
    ))
}
