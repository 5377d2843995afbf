//! A scheduler in a run, with all that its events need.
ghost use Rattle.std.specs.Prelude.{◌≡◌, IfOk};

use crate::tally::Tally;
use std::alloc::{AllocError, Global};
use tree_core::Taken;

/// A scheduler in a run: its policy's node names and version, room for the path of a packet, the
/// recorder of the outcomes, and the count of the events so far.
#[derive(Drop)]
pub struct Run<C: Drop, N: Drop, W: Drop> {
    pub(crate) names: N,
    pub(crate) version: u32,
    pub(crate) scheduler: C,
    pub(crate) trace: Taken,
    pub recorder: W,
    pub(crate) tally: Tally,
}

impl<C: Drop, N: Drop, W: Drop> Run<C, N, W> {
    ghost use Rattle.std.specs.Prelude.{◌≡◌, IfOk};
    ghost use Rattle.sched_run.specs.Stages.{IsFresh};

    /// Returns a run without events, with room for paths of `depth` levels below the root. The
    /// version is that of the policy's language. In version 2 leaves can have limits, and the last
    /// line shows how many packets were dropped. The error means out of memory.
    pub fn new(
        alloc: Global,
        names: N,
        depth: u32,
        version: u32,
        scheduler: C,
        recorder: W,
    ) -> Result<Run<C, N, W>, AllocError>
        ensures names { IfOk result (λ run. run.names ≡ names) }
        ensures version { IfOk result (λ run. run.version ≡ version) }
        ensures scheduler { IfOk result (λ run. run.scheduler ≡ scheduler) }
        ensures room { IfOk result (λ run. run.trace.room ≡ depth) }
        ensures recorder { IfOk result (λ run. run.recorder ≡ recorder) }
        ensures fresh { IfOk result (λ run. IsFresh run.tally) }
    {
        Ok(Run {
            names,
            version,
            scheduler,
            trace: Taken::new(alloc, depth)?,
            recorder,
            tally: Tally::new(),
        })
    }

    /// Ends the run, and returns its recorder.
    pub fn into_recorder(self) -> W
        ensures { result ≡ self.recorder }
    {
        self.recorder
    }
}
