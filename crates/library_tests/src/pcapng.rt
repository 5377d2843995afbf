//! Tests of captures in the pcapng format.
use crate::reading::{given, passed};
use outside_core::ReadError;
use pcapng_core::NgReader;
use std::test::Fail;

/// A section with one interface of link type 147. Two packets of four captured bytes, and one whose
/// block is cut short.
const TWO_AND_A_CUT: &[u8] =
    b"\x0a\x0d\x0d\x0a\x1c\0\0\0\x4d\x3c\x2b\x1a\x01\0\0\0\xff\xff\xff\xff\xff\xff\xff\xff\x1c\0\0\0\
    \x01\0\0\0\x14\0\0\0\x93\0\0\0\0\0\x04\0\x14\0\0\0\
    \x06\0\0\0\x24\0\0\0\0\0\0\0\0\0\0\0\x40\x42\x0f\0\x04\0\0\0\x04\0\0\0\0\0\0\x01\x24\0\0\0\
    \x06\0\0\0\x24\0\0\0\0\0\0\0\0\0\0\0\x80\x84\x1e\0\x04\0\0\0\x04\0\0\0\0\0\0\x02\x24\0\0\0\
    \x06\0\0\0\x24\0\0\0\0\0\0\0";

/// An interface before the first section.
const INTERFACE: &[u8] = b"\x01\0\0\0\x14\0\0\0\x93\0\0\0\0\0\x04\0\x14\0\0\0";

#[test]
fn captures_are_read_the_same_however_reads_are_cut(rt: HostRuntime) -> Result<(), Fail> {
    let cut = Err(ReadError::Fault(11, 5));
    for most in [1, 2, 7, 65_536] {
        let read = given::<NgReader>(rt.alloc(), TWO_AND_A_CUT, most, 0)?;
        assert_eq!(rt; (most, read), (most, Ok((2, 2, cut))));
        let pass = passed::<NgReader>(rt.alloc(), TWO_AND_A_CUT, most, 0)?;
        assert_eq!(rt; (most, pass), (most, Ok((2, cut))));
    }
    Ok(())
}

/// After the call that begins the file, the first block takes four reads of seven bytes. The first
/// packet ends with the thirteenth call.
#[test]
fn a_failed_read_is_no_fault_of_the_file(rt: HostRuntime) -> Result<(), Fail> {
    let failed = Err(ReadError::Source);
    for (fail, want) in [
        (2, Err(ReadError::Source)),
        (5, Err(ReadError::Source)),
        (6, Ok((0, 0, failed))),
        (14, Ok((1, 1, failed))),
    ] {
        let read = given::<NgReader>(rt.alloc(), TWO_AND_A_CUT, 7, fail)?;
        assert_eq!(rt; (fail, read), (fail, want));
    }
    for (fail, count) in [(6, 0), (13, 0), (14, 1)] {
        let pass = passed::<NgReader>(rt.alloc(), TWO_AND_A_CUT, 7, fail)?;
        assert_eq!(rt; (fail, pass), (fail, Ok((count, failed))));
    }
    Ok(())
}

#[test]
fn a_capture_begins_with_a_section(rt: HostRuntime) -> Result<(), Fail> {
    let read = given::<NgReader>(rt.alloc(), INTERFACE, 7, 0)?;
    assert_eq!(rt; read, Err(ReadError::Fault(13, 1)));
    Ok(())
}
