//! Passing over packets of one link type, which no run does.
use outside_core::{MemShelf, ReadError};
use policy_core::{Policy, resolve};
use policy_text::parse;
use sched_capture::{CapturePackets, Packets, SingleLinkType};
use std::alloc::{AllocError, Global};
use std::test::Fail;

/// Little-endian, microseconds, link type 147, whose headers aren't read.
pub(crate) const HEADER: &[u8] =
    b"\xd4\xc3\xb2\xa1\x02\0\x04\0\0\0\0\0\0\0\0\0\0\0\x04\0\x93\0\0\0";

/// A record of four bytes.
pub(crate) const RECORD: &[u8] = b"\x01\0\0\0\0\0\0\0\x04\0\0\0\x04\0\0\0\0\0\0\x01";

/// A pcapng section with interfaces of link types 147 and 1, and one packet without captured bytes
/// at each.
const TWO_LINKS: &[u8] =
    b"\x0a\x0d\x0d\x0a\x1c\0\0\0\x4d\x3c\x2b\x1a\x01\0\0\0\xff\xff\xff\xff\xff\xff\xff\xff\x1c\0\0\0\
    \x01\0\0\0\x14\0\0\0\x93\0\0\0\0\0\x04\0\x14\0\0\0\x01\0\0\0\x14\0\0\0\x01\0\0\0\0\0\x04\0\x14\0\0\0\
    \x06\0\0\0\x20\0\0\0\0\0\0\0\0\0\0\0\x01\0\0\0\0\0\0\0\x04\0\0\0\x20\0\0\0\
    \x06\0\0\0\x20\0\0\0\x01\0\0\0\0\0\0\0\x02\0\0\0\0\0\0\0\x04\0\0\0\x20\0\0\0";

pub(crate) fn policy_of(alloc: Global, text: &[u8]) -> Result<Policy, Fail> {
    let lines = parse(alloc, text)?;
    Ok(resolve(alloc, &lines)?)
}

/// Returns a shelf whose one file consists of these pieces. It is read at most 44 bytes at a time,
/// so that a read ends after the first record. The call with number `fails` fails.
pub(crate) fn shelf_of(
    alloc: Global,
    pieces: &[&[u8]],
    fails: u64,
) -> Result<MemShelf, AllocError> {
    let mut bytes = Vec::new(alloc);
    for piece in pieces {
        bytes.extend_from_slice(piece)?;
    }
    let name = String::from_str(alloc, "c")?;
    let files = vec![in alloc; (name, bytes)]?;
    Ok(MemShelf::new(files, 44, vec![in alloc; fails]?))
}

/// Passes over two packets, and returns both results.
fn pass_two<P: Packets>(packets: &mut P, source: &mut P::Source) -> Result<[bool; 2], ReadError>
    requires { P.ready packets.old source.old }
{
    let first = packets.pass(source)?;
    let second = packets.pass(source)?;
    Ok([first, second])
}

/// Passes over two packets that must have the link type of the first.
fn pass_of_one_link(
    alloc: Global,
    policy: &Policy,
    shelf: &mut MemShelf,
) -> Result<[bool; 2], ReadError> {
    let arrivals = CapturePackets::open(alloc, policy, shelf, "c")?;
    let mut packets = SingleLinkType::start(arrivals, shelf)?;
    pass_two(&mut packets, shelf)
}

#[test]
fn packets_of_one_link_type_are_passed_over(rt: HostRuntime) -> Result<(), Fail> {
    let alloc = rt.alloc();
    let policy = policy_of(
        alloc,
        b"policy 1\nclass all\nleaf root using fifo classes all\n",
    )?;
    let table: [(&[&[u8]], u64, Result<[bool; 2], ReadError>); 4] = [
        (&[HEADER, RECORD, RECORD], 0, Ok([true, true])),
        (&[HEADER, RECORD], 0, Ok([true, false])),
        (&[TWO_LINKS], 0, Err(ReadError::Fault(20, 2))),
        (&[HEADER, RECORD, RECORD], 3, Err(ReadError::Source)),
    ];
    for (pieces, fails, want) in table {
        let mut shelf = shelf_of(alloc, pieces, fails)?;
        assert_eq!(rt; pass_of_one_link(alloc, &policy, &mut shelf), want);
    }
    Ok(())
}
