//! The files and arguments of small runs, in memory.
use std::alloc::{AllocError, Global};

pub(crate) const POLICY: &[u8] = b"policy 1\nclass all\nleaf root using fifo classes all\n";

/// One leaf that queues at most one packet.
pub(crate) const FULL: &[u8] = b"policy 2\nclass all\nleaf root using fifo limit 1 classes all\n";

/// A target with one queue.
const TARGET: &[u8] = b"arity = 2\nheight = 0\n";

/// A header and two records of four bytes each, as tcpdump writes them.
pub(crate) const CAPTURE: &[u8] =
    b"\xd4\xc3\xb2\xa1\x02\0\x04\0\0\0\0\0\0\0\0\0\0\0\x04\0\x93\0\0\0\
    \x01\0\0\0\0\0\0\0\x04\0\0\0\x04\0\0\0\0\0\0\x01\
    \x01\0\0\0\x01\0\0\0\x04\0\0\0\x04\0\0\0\0\0\0\x02";

/// Returns arguments in memory: those of the first list, followed by those of the second.
pub(crate) fn arguments(
    alloc: Global,
    first: &[&str],
    more: &[&str],
) -> Result<Vec<String>, AllocError> {
    let mut arguments = Vec::new(alloc);
    for word in first {
        arguments.push(String::from_str(alloc, word)?)?;
    }
    for word in more {
        arguments.push(String::from_str(alloc, word)?)?;
    }
    Ok(arguments)
}

/// Appends a file.
fn put_file(
    alloc: Global,
    files: &mut Vec<(String, Vec<u8>)>,
    name: &str,
    content: &[u8],
) -> Result<(), AllocError> {
    let name = String::from_str(alloc, name)?;
    let content = content.to_vec(alloc)?;
    files.push((name, content))?;
    Ok(())
}

/// Returns the files `p`, `t`, `c` and `e` of a run, and a topology `g` and a map `m` for its
/// policy.
pub(crate) fn files(
    alloc: Global,
    policy: &[u8],
    capture: &[u8],
    script: &[u8],
) -> Result<Vec<(String, Vec<u8>)>, AllocError> {
    let mut files = Vec::new(alloc);
    put_file(alloc, &mut files, "p", policy)?;
    put_file(alloc, &mut files, "t", TARGET)?;
    put_file(alloc, &mut files, "c", capture)?;
    put_file(alloc, &mut files, "e", script)?;
    put_file(alloc, &mut files, "g", b"leaf\n")?;
    put_file(alloc, &mut files, "m", b"map root -\n")?;
    Ok(files)
}
