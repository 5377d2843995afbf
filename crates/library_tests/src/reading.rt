//! The result of reading a capture with a reader of either format.
ghost use Rattle.std.specs.Prelude.{◌≤◌, IfOk, IsTrue};
ghost use Rattle.outside_core.specs.Memory.{is_begun};

use outside_core::{MemShelf, ReadError, Shelf};
use pcap_core::{CaptureReader, Window};
use std::alloc::Global;
use std::test::Fail;

/// Returns a file that is begun and read at most `most` bytes at a time. The call with number
/// `fail` fails.
fn begun(alloc: Global, bytes: &[u8], most: usize, fail: u64) -> Result<MemShelf, Fail>
    requires { 1 ≤ most }
    ensures { IfOk result (λ shelf. IsTrue (is_begun shelf)) }
{
    let name = String::from_str(alloc, "c")?;
    let bytes = bytes.to_vec(alloc)?;
    let files = vec![in alloc; (name, bytes)]?;
    let fails = vec![in alloc; fail]?;
    let mut shelf = MemShelf::new(files, most, fails);
    shelf.begin("c").ok().ok_or("begin")?;
    Ok(shelf)
}

/// Reads at most four packets. Returns the number and the last captured byte of the last one, and
/// how reading ended.
fn read_on<R: CaptureReader>(
    reader: &mut R,
    shelf: &mut MemShelf,
    into: &mut Vec<u8>,
) -> (u64, u8, Result<(), ReadError>)
    requires ready { R.ready reader.old }
    requires begun { IsTrue (is_begun shelf.old) }
{
    let mut number = 0;
    let mut byte = 0;
    for _ in 0..4 {
        match reader.next_in_place(shelf, into) {
            Ok(Some(packet)) => {
                number = packet.frame.number;
                byte = reader.captured(into).last().copied().unwrap_or(0);
            }
            Ok(None) => return (number, byte, Ok(())),
            Err(fault) => return (number, byte, Err(fault)),
        }
    }
    (number, byte, Ok(()))
}

/// Passes over at most four packets. Returns their number, and how that ended.
fn pass_on<R: CaptureReader>(
    reader: &mut R,
    shelf: &mut MemShelf,
    scratch: &mut Vec<u8>,
) -> (u64, Result<(), ReadError>)
    requires ready { R.ready reader.old }
    requires begun { IsTrue (is_begun shelf.old) }
{
    for count in 0..4 {
        match reader.pass(shelf, scratch) {
            Ok(true) => {}
            Ok(false) => return (count, Ok(())),
            Err(fault) => return (count, Err(fault)),
        }
    }
    (4, Ok(()))
}

/// Returns the result of `read_on` for a capture, or why the reader didn't start.
pub(crate) fn given<R: CaptureReader + Drop>(
    alloc: Global,
    bytes: &[u8],
    most: usize,
    fail: u64,
) -> Result<Result<(u64, u8, Result<(), ReadError>), ReadError>, Fail>
    requires { 1 ≤ most }
{
    let mut shelf = begun(alloc, bytes, most, fail)?;
    let mut reader = R::over(alloc, Window::new(alloc));
    let mut into = Vec::new(alloc);
    match reader.start(&mut shelf) {
        Ok(()) => Ok(Ok(read_on(&mut reader, &mut shelf, &mut into))),
        Err(fault) => Ok(Err(fault)),
    }
}

/// Returns the result of `pass_on` for a capture, or why the reader didn't start.
pub(crate) fn passed<R: CaptureReader + Drop>(
    alloc: Global,
    bytes: &[u8],
    most: usize,
    fail: u64,
) -> Result<Result<(u64, Result<(), ReadError>), ReadError>, Fail>
    requires { 1 ≤ most }
{
    let mut shelf = begun(alloc, bytes, most, fail)?;
    let mut reader = R::over(alloc, Window::new(alloc));
    let mut scratch = Vec::new(alloc);
    match reader.start(&mut shelf) {
        Ok(()) => Ok(Ok(pass_on(&mut reader, &mut shelf, &mut scratch))),
        Err(fault) => Ok(Err(fault)),
    }
}
