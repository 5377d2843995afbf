//! The program over hardware that builds its queues from rank stores: runs its command on real
//! files and standard output. `block_run` of block_replay specifies its output.
#![tactic(auto)]

use block_core::BlockFabric;
use block_replay::block_run;
use outside_core::{FileShelf, StdSink};
use replay_app::{Program, run_program};
use std::alloc::{AllocError, Global};
use std::process::ExitCode;
use tap_core::Tap;

/// The program whose fabric keeps rank stores at each node.
struct BlockProgram;

impl Program for BlockProgram {
    fn answer(
        alloc: Global,
        words: &[String],
        shelf: &mut FileShelf<HostRuntime>,
        sink: &mut StdSink<HostRuntime>,
        taps: &mut Vec<Box<dyn Tap>>,
    ) -> Result<u8, AllocError> {
        let mut fabric = BlockFabric::new(alloc)?;
        Ok(block_run(alloc, words, shelf, sink, &mut fabric, taps))
    }
}

fn main(rt: HostRuntime) -> ExitCode {
    run_program::<BlockProgram>(rt)
}
