//! Why a file can't be read, and its first bytes.
use crate::told::tell;
use front_core::{file_read_at, name_shown};
use front_defs::Options;
use std::alloc::AllocError;
use std::fs::{self, File};
use std::io::{self, Read};

/// The most reads of a file for a message.
const MOST_READS: u32 = 512;

/// Reads a byte to check that a file can be read. A pipe isn't opened again, since opening it could
/// wait for a writer.
fn try_file(rt: &HostRuntime, name: &str) -> io::Result<usize> {
    let found = fs::metadata(rt, name)?;
    if !found.is_file() && !found.is_dir() {
        return Ok(0);
    }
    let mut file = fs::open(rt, name)?;
    let mut buffer = [0; 1];
    file.read(&mut buffer)
}

/// Opens a file again, or returns none if it isn't a regular file. A pipe can't be read twice.
fn open_again(rt: &HostRuntime, name: &str) -> io::Result<Option<File>> {
    if fs::metadata(rt, name)?.is_file() {
        Ok(Some(fs::open(rt, name)?))
    } else {
        Ok(None)
    }
}

/// Writes to standard error which file can't be read, and why. Files are tried in the order in
/// which the command reads them.
pub fn tell_unread(rt: &HostRuntime, options: &Options<'_>) -> Result<(), AllocError> {
    for turn in 0..options.files.len() {
        let Some(name) = options.files.get(file_read_at(options, turn)) else {
            break;
        };
        if let Err(error) = try_file(rt, name) {
            let name = name_shown(name);
            let text = format!(in rt.alloc();
                "{name}: error: expected a file that can be read, found: {error}\n"
            )?;
            tell(rt, text.as_bytes());
            return Ok(());
        }
    }
    tell(rt, b"zovatsemo: error: a file can't be read to its end\n");
    Ok(())
}

/// Returns the first bytes of a file, until a read fails or `MOST_READS` reads are done. Returns
/// none if the file can't be opened twice. Fails if out of memory.
pub fn front_of(rt: &HostRuntime, name: &str) -> Result<Option<Vec<u8>>, AllocError> {
    let Ok(Some(mut file)) = open_again(rt, name) else {
        return Ok(None);
    };
    let mut text = Vec::new(rt.alloc());
    let mut chunk = [0; 4096];
    for _ in 0..MOST_READS {
        match file.read(&mut chunk) {
            Ok(count) if 0 < count => text.extend_from_slice(&chunk[..count])?,
            _ => break,
        }
    }
    Ok(Some(text))
}
