//! Tests of captures in the classic format.
use crate::reading::{given, passed};
use outside_core::ReadError;
use pcap_core::Reader;
use std::test::Fail;

/// Little-endian, microseconds, link type 147. Two records of four captured bytes, and one that
/// lacks two of its four.
const TWO_AND_A_CUT: &[u8] = b"\xd4\xc3\xb2\xa1\x02\0\x04\0\0\0\0\0\0\0\0\0\0\0\x04\0\x93\0\0\0\
    \x01\0\0\0\0\0\0\0\x04\0\0\0\x04\0\0\0\0\0\0\x01\
    \x01\0\0\0\x01\0\0\0\x04\0\0\0\x04\0\0\0\0\0\0\x02\
    \x02\0\0\0\0\0\0\0\x04\0\0\0\x04\0\0\0\0\0";

/// The magic number of a pcapng capture, which the other reader reads.
const PCAPNG: &[u8] = b"\x0a\x0d\x0d\x0a\0\0\0\0\0\0\0\0\0\0\0\0\0\0\0\0\0\0\0\0";

/// A read of forty bytes ends at the first record's captured bytes.
#[test]
fn captures_are_read_the_same_however_reads_are_cut(rt: HostRuntime) -> Result<(), Fail> {
    let cut = Err(ReadError::Fault(6, 3));
    for most in [1, 2, 7, 40, 65_536] {
        let read = given::<Reader>(rt.alloc(), TWO_AND_A_CUT, most, 0)?;
        assert_eq!(rt; (most, read), (most, Ok((2, 2, cut))));
        let pass = passed::<Reader>(rt.alloc(), TWO_AND_A_CUT, most, 0)?;
        assert_eq!(rt; (most, pass), (most, Ok((2, cut))));
    }
    Ok(())
}

/// After the call that begins the file, the header takes four reads of seven bytes.
#[test]
fn a_failed_read_is_no_fault_of_the_file(rt: HostRuntime) -> Result<(), Fail> {
    let failed = Err(ReadError::Source);
    for (fail, want) in [
        (2, Err(ReadError::Source)),
        (5, Err(ReadError::Source)),
        (6, Ok((0, 0, failed))),
        (9, Ok((1, 1, failed))),
    ] {
        let read = given::<Reader>(rt.alloc(), TWO_AND_A_CUT, 7, fail)?;
        assert_eq!(rt; (fail, read), (fail, want));
    }
    for (fail, count) in [(6, 0), (8, 0), (9, 1)] {
        let pass = passed::<Reader>(rt.alloc(), TWO_AND_A_CUT, 7, fail)?;
        assert_eq!(rt; (fail, pass), (fail, Ok((count, failed))));
    }
    Ok(())
}

#[test]
fn a_pcapng_capture_is_told(rt: HostRuntime) -> Result<(), Fail> {
    let read = given::<Reader>(rt.alloc(), PCAPNG, 7, 0)?;
    assert_eq!(rt; read, Err(ReadError::Fault(3, 0)));
    Ok(())
}
