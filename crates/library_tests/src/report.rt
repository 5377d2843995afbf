//! Tests of a report over a sink that fails.
use outside_core::MemSink;
use report_core::{Report, WriteFault};
use std::test::Fail;

#[test]
fn a_write_fails_in_mid_stream(rt: HostRuntime) -> Result<(), Fail> {
    let second = vec![in rt.alloc(); 2]?;
    let mut sink = MemSink::new(rt.alloc(), 1_000, 1, second)?;
    let mut report = Report::new(rt.alloc())?;
    report.arrived(&mut sink, 1, 1, "root", &[0])?;
    assert!(rt; sink.bytes().is_empty());
    assert_eq!(rt; report.finish(&mut sink), Err(WriteFault));
    assert!(rt; !report.live());
    assert_eq!(rt; sink.bytes(), b"a".as_slice());
    Ok(())
}
