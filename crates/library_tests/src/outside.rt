//! Tests of shelves and sinks that fail in mid-stream, or that take few bytes at a time.
ghost use Rattle.std.specs.Prelude.{IsTrue};

use outside_core::{
    LoadError, MemShelf, MemSink, PlainShelf, PlainSink, Shelf, StdSink, load, write_all,
};
use std::alloc::{AllocError, Global};
use std::cell::Cell;
use std::fmt::Display;
use std::io;
use std::test::Fail;

/// Returns one file of five bytes.
fn files(alloc: Global) -> Result<Vec<(String, Vec<u8>)>, AllocError> {
    let name = String::from_str(alloc, "policy")?;
    let bytes = Vec::from_slice(alloc, b"hello")?;
    Ok(vec![in alloc; (name, bytes)]?)
}

/// Returns whether a load of at most nine bytes gives this text.
fn loads<S: Shelf>(alloc: Global, shelf: &mut S, name: &str, text: &[u8]) -> bool
    requires lent { IsTrue (S.lends shelf.old name.now) }
{
    match load(alloc, shelf, name, 9) {
        Ok(bytes) => bytes.as_slice() == text,
        Err(_) => false,
    }
}

/// Returns whether a load of at most nine bytes fails.
fn fails<S: Shelf>(alloc: Global, shelf: &mut S, name: &str) -> bool
    requires lent { IsTrue (S.lends shelf.old name.now) }
{
    load(alloc, shelf, name, 9).err() == Some(LoadError::Failed)
}

/// A load with reads of three bytes makes four calls: one to begin the file, and reads of three
/// bytes, two bytes and none.
#[test]
fn a_load_fails_where_a_call_of_its_shelf_fails(rt: HostRuntime) -> Result<(), Fail> {
    let alloc = rt.alloc();
    for call in 1..5 {
        let mut shelf = MemShelf::new(files(alloc)?, 3, vec![in alloc; call]?);
        assert!(rt; fails(alloc, &mut shelf, "policy"), "call {call}");
        assert!(rt;
            loads(alloc, &mut shelf, "policy", b"hello"),
            "after call {call}"
        );
    }
    Ok(())
}

#[test]
fn a_plain_shelf_has_an_empty_file_under_another_name(rt: HostRuntime) -> Result<(), Fail> {
    let mut shelf = PlainShelf::new(files(rt.alloc())?);
    assert!(rt; loads(rt.alloc(), &mut shelf, "policy", b"hello"));
    assert!(rt; loads(rt.alloc(), &mut shelf, "other", b""));
    Ok(())
}

/// Writes `hello` two bytes at a time; the write with this number fails. Returns whether all was
/// written, and whether the sink holds `prefix`.
fn writes(alloc: Global, fail: u64, prefix: &str) -> Result<(bool, bool), AllocError> {
    let fails = vec![in alloc; fail]?;
    let mut sink = MemSink::new(alloc, 9, 2, fails)?;
    let whole = write_all(&mut sink, b"hello").is_ok();
    Ok((whole, sink.bytes() == prefix.as_bytes()))
}

#[test]
fn a_prefix_is_written_before_a_write_fails(rt: HostRuntime) -> Result<(), Fail> {
    for (fail, prefix, whole) in [(1, "", false), (3, "hell", false), (4, "hello", true)] {
        assert_eq!(rt;
            writes(rt.alloc(), fail, prefix)?,
            (whole, true),
            "write {fail}"
        );
    }
    Ok(())
}

#[test]
fn a_plain_sink_keeps_the_first_bytes(rt: HostRuntime) -> Result<(), Fail> {
    let mut sink = PlainSink::new(rt.alloc(), 7)?;
    for (text, kept) in [("hello", "hello"), ("world", "hellowo"), ("!", "hellowo")] {
        assert!(rt; write_all(&mut sink, text.as_bytes()).is_ok());
        assert_eq!(rt; sink.bytes(), kept.as_bytes());
    }
    Ok(())
}

/// A page in memory instead of standard output, which no test can read back. It takes at most three
/// bytes at a time.
#[derive(Drop)]
struct Page {
    alloc: Global,
    bytes: Cell<Vec<u8>>,
}

impl Print for Page {
    fn print<D: Display + Drop>(&self, value: D) -> io::Result<()> {
        self.write_all(format!(in self.alloc; "{value}")?.as_bytes())
    }

    fn println<D: Display + Drop>(&self, value: D) -> io::Result<()> {
        self.write_all(format!(in self.alloc; "{value}\n")?.as_bytes())
    }

    fn write_all(&self, bytes: &[u8]) -> io::Result<()> {
        let mut all = self.bytes.replace(Vec::new(self.alloc));
        let added = all.extend_from_slice(bytes);
        self.bytes.set(all);
        Ok(added?)
    }

    fn write_some(&self, bytes: &[u8]) -> io::Result<usize> {
        let count = bytes.len().min(3);
        self.write_all(&bytes[..count])?;
        Ok(count)
    }
}

#[test]
fn standard_output_takes_all_bytes_in_their_order(rt: HostRuntime) -> Result<(), Fail> {
    let alloc = rt.alloc();
    let page = Page {
        alloc,
        bytes: Cell::new(Vec::new(alloc)),
    };
    let mut sink = StdSink::new(&page);
    assert!(rt; write_all(&mut sink, b"all of this line\n").is_ok());
    assert!(rt; write_all(&mut sink, b"and \xff\n").is_ok());
    let printed = page.bytes.replace(Vec::new(alloc));
    assert_eq!(rt;
        printed.as_slice(),
        b"all of this line\nand \xff\n".as_slice()
    );
    Ok(())
}
