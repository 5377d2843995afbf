//! The program: runs its command on real files and standard output.
#![tactic(auto)]

use fabric_core::FlatFabric;
use outside_core::{FileShelf, StdSink};
use replay_app::{Program, run, run_program};
use std::alloc::{AllocError, Global};
use std::process::ExitCode;
use tap_core::Tap;

/// The program whose fabric keeps a queue at each node.
struct FlatProgram;

impl Program for FlatProgram {
    fn answer(
        alloc: Global,
        words: &[String],
        shelf: &mut FileShelf<HostRuntime>,
        sink: &mut StdSink<HostRuntime>,
        taps: &mut Vec<Box<dyn Tap>>,
    ) -> Result<u8, AllocError> {
        let mut fabric = FlatFabric::new(alloc)?;
        Ok(run(alloc, words, shelf, sink, &mut fabric, taps))
    }
}

fn main(rt: HostRuntime) -> ExitCode {
    run_program::<FlatProgram>(rt)
}
