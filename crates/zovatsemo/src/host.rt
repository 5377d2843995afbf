//! The environment of the entry point: arguments, files, standard output and standard error.
use crate::again::{add_detail, tell_ending, upgrade_text, warn};
use crate::files::{front_of, tell_unread};
use crate::front::{front_caught, front_run};
use crate::output::{NO_OUTPUT, Output};
use crate::progress::Watched;
use crate::told::tell;
use front_core::{
    Asked, Catching, Fault, Mistake, Request, ask, fault_in, file_of, policy_of, tell_fault,
    tell_mistake,
};
use front_defs::{Command, Options, View, help_of, help_of_all};
use outside_core::{FileShelf, StdSink};
use replay_app::{NO_FORM, refuse, stop_status};
use report_core::FaultKind;
use std::alloc::AllocError;
use std::io::IsTerminal;
use std::process::ExitCode;
use std::{env, io};
use tap_core::{BytesTap, DropsTap, FirstTap, OrderTap, Tap};

/// Exit status: a node passed a limit of `size`.
const PASSED: u8 = 1;

/// Exit status: the arguments are malformed.
const BAD_WORDS: u8 = 2;

/// Exit status: out of memory.
const NO_MEMORY: u8 = 10;

/// Exit status: the system didn't supply the arguments.
const NO_WORDS: u8 = 16;

/// The most packet numbers that a tap of kind `first` keeps.
const FIRST_LIMIT: u32 = 8;

/// The text of `--version`.
const VERSION: &str = "\
zovatsemo, a packet scheduler
proved: each function that the program is built from meets its contract (docs/PROOFS.md)
";

/// Returns the arguments after the program's name.
fn words_of(rt: &HostRuntime) -> io::Result<Vec<String>> {
    let mut words = Vec::new(rt.alloc());
    for word in env::args(rt)?.skip(1) {
        words.push(word)?;
    }
    Ok(words)
}

/// Returns the first bytes of the policy that an error in a map is about, or nothing.
fn policy_for(
    rt: &HostRuntime,
    options: &Options<'_>,
    fault: Fault,
) -> Result<Vec<u8>, AllocError> {
    let text = match policy_of(options) {
        Some(name) if fault.kind == FaultKind::Map => front_of(rt, name)?,
        _ => None,
    };
    Ok(text.unwrap_or(Vec::new(rt.alloc())))
}

/// Writes the message for an error that the output names to standard error.
fn tell_of(rt: &HostRuntime, options: &Options<'_>, fault: Fault) -> Result<(), AllocError> {
    let name = match file_of(options, fault.kind) {
        Some(place) if place < options.files.len() => options.files[place],
        _ => "zovatsemo",
    };
    let content = front_of(rt, name)?;
    let front = match &content {
        Some(content) => Some(content.as_slice()),
        None => None,
    };
    let policy = policy_for(rt, options, fault)?;
    let text = match upgrade_text(rt, options, fault, name)? {
        Some(text) => text,
        None => tell_fault(rt.alloc(), fault, name, front, &policy)?,
    };
    tell(rt, &add_detail(rt, options, fault, &text)?);
    Ok(())
}

/// Returns the error that the output names: in the `fault` line that is held back, or in the last
/// JSON line.
fn fault_told(
    rt: &HostRuntime,
    options: &Options<'_>,
    sink: &Catching<Output<'_>>,
) -> Option<Fault> {
    match sink.kept() {
        [line @ .., b'\n'] => fault_in(rt.alloc(), line),
        _ if options.view == View::Json => sink.below().tail().fault(rt.alloc()),
        _ => None,
    }
}

/// Writes why a run ended with this status to standard error, using the error that the output names
/// if there is one.
fn tell_end(
    rt: &HostRuntime,
    options: &Options<'_>,
    status: u8,
    sink: &Catching<Output<'_>>,
) -> Result<(), AllocError> {
    if status == 0 || status == PASSED {
        let _ = warn(rt, options);
        return Ok(());
    }
    if status == NO_OUTPUT {
        return sink.below().tell_failure(options.command);
    }
    match fault_told(rt, options, sink) {
        Some(fault) => tell_of(rt, options, fault),
        None if status == 8 => tell_unread(rt, options),
        None => tell_ending(rt, options, status),
    }
}

/// Returns whether lines about the progress of a run don't mix with its output: that goes elsewhere
/// than to a terminal, or comes at the end.
fn shows_progress(rt: &HostRuntime, request: &Request<'_>) -> bool {
    let is_last = matches!(request.options.view, View::Summary | View::JsonSummary);
    is_last
        || request.options.command.is_size()
        || request.output.is_some()
        || !rt.stdout().is_terminal()
}

/// Runs the requested command. If it fails, writes a message to standard error, unless `--quiet` is
/// given.
fn run_told(
    rt: &HostRuntime,
    request: &Request<'_>,
    below: Output<'_>,
    taps: &mut Vec<Box<dyn Tap>>,
) -> Result<u8, AllocError> {
    let alloc = rt.alloc();
    let options = &request.options;
    let shows = !request.quiet && shows_progress(rt, request);
    let mut shelf = Watched::new(rt.clone()?, FileShelf::new(rt.clone()?), shows);
    let mut sink = Catching::new(alloc, below, options.command == Command::Forward)?;
    let status = front_caught(alloc, options, &mut shelf, &mut sink, taps);
    shelf.erase();
    let is_done = status == 0 || status == PASSED || status == 14 || status == 15;
    let is_lost = is_done && sink.release().is_err();
    let status = if is_lost { NO_OUTPUT } else { status };
    if !request.quiet {
        tell_end(rt, options, status, &sink)?;
    }
    Ok(status)
}

/// Runs the requested command under `--plain`: the output gets all that is written.
fn run_plain(
    rt: &HostRuntime,
    options: &Options<'_>,
    mut sink: Output<'_>,
    taps: &mut Vec<Box<dyn Tap>>,
) -> Result<u8, AllocError> {
    let mut shelf = FileShelf::new(rt.clone()?);
    Ok(front_run(rt.alloc(), options, &mut shelf, &mut sink, taps))
}

/// Runs the requested command, with standard output or a file as its output. There is a tap of each
/// kind.
fn run_request(rt: &HostRuntime, request: &Request<'_>) -> Result<u8, AllocError> {
    let alloc = rt.alloc();
    let below = Output::new(rt.clone()?, request.output);
    let mut taps: Vec<Box<dyn Tap>> = Vec::new(alloc);
    taps.push(Box::new(alloc, BytesTap::new())?)?;
    taps.push(Box::new(alloc, OrderTap::new())?)?;
    taps.push(Box::new(alloc, FirstTap::new(alloc, FIRST_LIMIT)?)?)?;
    taps.push(Box::new(alloc, DropsTap::new())?)?;
    if request.options.plain {
        run_plain(rt, &request.options, below, &mut taps)
    } else {
        run_told(rt, request, below, &mut taps)
    }
}

/// Prints a text and returns the exit status.
fn print(rt: &HostRuntime, text: &str) -> u8 {
    match print!(rt; "{text}") {
        Ok(()) => 0,
        Err(_) => NO_OUTPUT,
    }
}

/// Returns whether `--plain` is among the arguments.
fn is_plain(words: &[String]) -> bool {
    words.iter().any(|word| word.as_str() == "--plain")
}

/// Returns whether `--quiet` is among the arguments, or an argument that begins with `-q`.
fn is_quiet(words: &[String]) -> bool {
    words.iter().any(|word| word.as_str() == "--quiet" || word.starts_with("-q"))
}

/// Writes the `fault` line that the replayer writes for malformed arguments.
fn refuse_plain(rt: &HostRuntime) -> Result<u8, AllocError> {
    let mut sink = StdSink::new(rt.clone()?);
    match refuse(rt.alloc(), &mut sink, FaultKind::Words, NO_FORM) {
        Ok(status) => Ok(status.code()),
        Err(stop) => Ok(stop_status(stop)),
    }
}

/// Runs the command that the arguments give, and returns the exit status.
fn answer_to(rt: &HostRuntime, words: &[String]) -> Result<u8, AllocError> {
    match ask(rt.alloc(), words) {
        Ok(Asked::Help(None)) => Ok(print(rt, help_of_all())),
        Ok(Asked::Help(Some(command))) => Ok(print(rt, help_of(command))),
        Ok(Asked::Version) => Ok(print(rt, VERSION)),
        Ok(Asked::Run(request)) => run_request(rt, &request),
        Err(Mistake::NoMemory) => Ok(NO_MEMORY),
        Err(_) if is_plain(words) => refuse_plain(rt),
        Err(_) if is_quiet(words) => Ok(BAD_WORDS),
        Err(mistake) => {
            tell(rt, &tell_mistake(rt.alloc(), mistake)?);
            Ok(BAD_WORDS)
        }
    }
}

/// Runs the command that the program's arguments give.
pub fn answer(rt: &HostRuntime) -> ExitCode {
    let words = match words_of(rt) {
        Ok(words) => words,
        Err(error) if error.kind() == io::ErrorKind::OutOfMemory => {
            return ExitCode::from(NO_MEMORY);
        }
        Err(_) => {
            tell(
                rt,
                b"zovatsemo: error: expected arguments in UTF-8, found other bytes\n",
            );
            return ExitCode::from(NO_WORDS);
        }
    };
    match answer_to(rt, &words) {
        Ok(status) => ExitCode::from(status),
        Err(_) => ExitCode::from(NO_MEMORY),
    }
}
