//! The environment of a program's commands: arguments, real files, standard output and taps.
use outside_core::{FileShelf, StdSink};
use std::alloc::{AllocError, Global};
use std::process::ExitCode;
use std::{env, io};
use tap_core::{BytesTap, DropsTap, FirstTap, OrderTap, Tap};

/// Exit status: out of memory, for the arguments or for the run.
const NO_MEMORY: u8 = 10;

/// Exit status: the system didn't supply the arguments.
const NO_WORDS: u8 = 16;

/// The most packet numbers that a tap of kind `first` keeps.
const FIRST_LIMIT: u32 = 8;

/// A program with commands.
pub trait Program {
    /// Runs the command that the arguments give, and returns the program's exit status. The list of
    /// taps has one tap of each kind.
    fn answer(
        alloc: Global,
        words: &[String],
        shelf: &mut FileShelf<HostRuntime>,
        sink: &mut StdSink<HostRuntime>,
        taps: &mut Vec<Box<dyn Tap>>,
    ) -> Result<u8, AllocError>;
}

/// Returns the arguments after the program's name.
fn words_of(rt: &HostRuntime) -> io::Result<Vec<String>> {
    let mut words = Vec::new(rt.alloc());
    for word in env::args(rt)?.skip(1) {
        words.push(word)?;
    }
    Ok(words)
}

/// Sets up files, output and taps, and runs the command that the arguments give.
fn answer_to<P: Program>(rt: &HostRuntime, words: &[String]) -> Result<u8, AllocError> {
    let alloc = rt.alloc();
    let mut taps: Vec<Box<dyn Tap>> = Vec::new(alloc);
    taps.push(Box::new(alloc, BytesTap::new())?)?;
    taps.push(Box::new(alloc, OrderTap::new())?)?;
    taps.push(Box::new(alloc, FirstTap::new(alloc, FIRST_LIMIT)?)?)?;
    taps.push(Box::new(alloc, DropsTap::new())?)?;
    let mut shelf = FileShelf::new(rt.clone()?);
    let mut sink = StdSink::new(rt.clone()?);
    P::answer(alloc, words, &mut shelf, &mut sink, &mut taps)
}

/// Runs the command that the program's arguments give.
pub fn run_program<P: Program>(rt: HostRuntime) -> ExitCode {
    let words = match words_of(&rt) {
        Ok(words) => words,
        Err(error) if error.kind() == io::ErrorKind::OutOfMemory => {
            return ExitCode::from(NO_MEMORY);
        }
        Err(_) => return ExitCode::from(NO_WORDS),
    };
    match answer_to::<P>(&rt, &words) {
        Ok(status) => ExitCode::from(status),
        Err(_) => ExitCode::from(NO_MEMORY),
    }
}
