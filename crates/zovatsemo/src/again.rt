//! Second readings of a command's files, for messages and warnings. A pipe isn't read twice.
use crate::asked::LATEST;
use crate::files::front_of;
use crate::reserved::tell_reserved;
use crate::told::tell;
use front_core::{
    Fault, capture_of, line_at, name_shown, policy_of, size_detail, target_of, tell_found,
    tell_status, tell_status_of, with_detail,
};
use front_defs::{Command, Options};
use front_upgrade::reserved_in;
use front_warnings::{Counts, Walk, capture_warnings, damage_text, policy_warnings};
use outside_core::FileShelf;
use replay_app::{PolicyFile, PolicyFormat, read_input};
use report_core::FaultKind;
use std::alloc::AllocError;
use std::fs::{self, File};
use std::io::Read;

/// The greatest capture that is read again for warnings, in bytes.
const MOST_BYTES: u64 = 67_108_864;

/// Returns the size of a regular file in bytes.
fn size_of(rt: &HostRuntime, name: &str) -> Option<u64> {
    match fs::metadata(rt, name) {
        Ok(found) if found.is_file() => Some(found.len()),
        _ => None,
    }
}

/// Opens a regular file again.
fn open_again(rt: &HostRuntime, name: &str) -> Option<File> {
    size_of(rt, name)?;
    fs::open(rt, name).ok()
}

/// Reads a file to its end, or until the walk is over. Returns whether no read failed. Fails if out
/// of memory.
fn walk_through(file: &mut File, walk: &mut Walk<'_>) -> Result<bool, AllocError> {
    let mut chunk = [0; 16_384];
    for _ in 0..u64::MAX {
        if walk.is_over() {
            return Ok(true);
        }
        match file.read(&mut chunk) {
            Ok(0) => return Ok(true),
            Ok(count) => walk.feed(&chunk[..count])?,
            Err(_) => return Ok(false),
        }
    }
    Ok(false)
}

/// Returns the position of an error in a capture and what is there, as a line of a message, if the
/// capture can be read again. Fails if out of memory.
fn capture_detail(rt: &HostRuntime, name: &str, fault: Fault) -> Result<String, AllocError> {
    let alloc = rt.alloc();
    let Some(mut file) = open_again(rt, name) else {
        return Ok(String::new(alloc));
    };
    let mut walk = Walk::new(alloc, None);
    if !walk_through(&mut file, &mut walk)? {
        return Ok(String::new(alloc));
    }
    match walk.end() {
        Some(found) if found.damage.code() == fault.code => damage_text(alloc, found),
        _ => Ok(String::new(alloc)),
    }
}

/// Returns what a second reading says about an error, as lines of a message. Fails if out of
/// memory.
fn detail_of(rt: &HostRuntime, options: &Options<'_>, fault: Fault) -> Result<String, AllocError> {
    let alloc = rt.alloc();
    match (
        fault.kind,
        capture_of(options),
        policy_of(options),
        target_of(options),
    ) {
        (FaultKind::Capture, Some(name), _, _) => capture_detail(rt, name, fault),
        (FaultKind::Size, _, Some(policy), Some(target)) => {
            match (front_of(rt, policy)?, front_of(rt, target)?) {
                (Some(policy), Some(target)) => size_detail(alloc, &policy, &target),
                _ => Ok(String::new(alloc)),
            }
        }
        _ => Ok(String::new(alloc)),
    }
}

/// Returns the message for an error, with what a second reading of the files says about it. Fails
/// if out of memory.
pub fn add_detail(
    rt: &HostRuntime,
    options: &Options<'_>,
    fault: Fault,
    text: &[u8],
) -> Result<Vec<u8>, AllocError> {
    with_detail(rt.alloc(), text, &detail_of(rt, options, fault)?)
}

/// Reads the policy of a command again, if it isn't a pipe.
fn policy_again(rt: &HostRuntime, options: &Options<'_>) -> Result<Option<PolicyFile>, AllocError> {
    let Some(name) = policy_of(options) else {
        return Ok(None);
    };
    if size_of(rt, name).is_none() {
        return Ok(None);
    }
    let mut shelf = FileShelf::new(rt.clone()?);
    Ok(read_input(rt.alloc(), &PolicyFormat(LATEST), &mut shelf, name).ok())
}

/// Returns the message for an accepted policy that can't be written as one of version 3, from a
/// second reading. Fails if out of memory.
pub fn upgrade_text(
    rt: &HostRuntime,
    options: &Options<'_>,
    fault: Fault,
    name: &str,
) -> Result<Option<Vec<u8>>, AllocError> {
    if !options.upgrade || fault.kind != FaultKind::Policy || policy_again(rt, options)?.is_none() {
        return Ok(None);
    }
    let Some(content) = front_of(rt, name)? else {
        return Ok(None);
    };
    let Some(line) = line_at(&content, fault.place) else {
        return Ok(None);
    };
    match reserved_in(line) {
        Some((column, word)) => Ok(Some(tell_reserved(
            rt.alloc(),
            fault,
            name,
            line,
            column,
            word,
        )?)),
        None => Ok(None),
    }
}

/// Returns the message for a status of `forward` without a `fault` line, from a second reading of
/// its capture. Fails if out of memory.
fn forward_text(
    rt: &HostRuntime,
    options: &Options<'_>,
    status: u8,
    name: &str,
) -> Result<Option<Vec<u8>>, AllocError> {
    let alloc = rt.alloc();
    let Some(policy_file) = policy_again(rt, options)? else {
        return Ok(None);
    };
    let Some(mut file) = open_again(rt, name) else {
        return Ok(None);
    };
    let mut walk = Walk::new(alloc, Some(Counts::new(alloc, &policy_file.policy)?));
    if !walk_through(&mut file, &mut walk)? {
        return Ok(None);
    }
    let found = walk.end();
    match (status, found, walk.into_counts()) {
        (7, Some(found), _) => Ok(Some(tell_found(alloc, found, name)?)),
        (14 | 15, _, Some(counts)) => Ok(Some(tell_status_of(
            alloc,
            options.command,
            status,
            name,
            &counts,
        )?)),
        _ => Ok(None),
    }
}

/// Writes the message for a status without a `fault` line to standard error. Fails if out of
/// memory.
pub fn tell_ending(rt: &HostRuntime, options: &Options<'_>, status: u8) -> Result<(), AllocError> {
    let text = match capture_of(options) {
        Some(name) if options.command == Command::Forward => {
            forward_text(rt, options, status, name)?
        }
        _ => None,
    };
    match text {
        Some(text) => tell(rt, &text),
        None => tell(rt, &tell_status(rt.alloc(), options.command, status)?),
    }
    Ok(())
}

/// Writes the warnings about a capture to standard error. Fails if out of memory.
fn warn_of_capture(
    rt: &HostRuntime,
    name: &str,
    policy_file: &PolicyFile,
) -> Result<(), AllocError> {
    let alloc = rt.alloc();
    match size_of(rt, name) {
        Some(size) if size <= MOST_BYTES => (),
        _ => return Ok(()),
    }
    let Some(mut file) = open_again(rt, name) else {
        return Ok(());
    };
    let mut walk = Walk::new(alloc, Some(Counts::new(alloc, &policy_file.policy)?));
    let is_read = walk_through(&mut file, &mut walk)? && walk.end().is_none();
    match walk.into_counts() {
        Some(counts) if is_read => {
            let text = capture_warnings(alloc, name_shown(name), &counts, &policy_file.lines)?;
            tell(rt, text.as_bytes());
        }
        _ => (),
    }
    Ok(())
}

/// Writes the warnings about a command's policy and capture to standard error. Fails if out of
/// memory.
pub fn warn(rt: &HostRuntime, options: &Options<'_>) -> Result<(), AllocError> {
    let Some(policy_file) = policy_again(rt, options)? else {
        return Ok(());
    };
    let name = name_shown(policy_of(options).unwrap_or("policy"));
    let text = policy_warnings(rt.alloc(), name, &policy_file.lines)?;
    tell(rt, text.as_bytes());
    match capture_of(options) {
        Some(capture) => warn_of_capture(rt, capture, &policy_file),
        None => Ok(()),
    }
}
