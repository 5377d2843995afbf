//! The task of a run over a capture.
use sched_run::Pace;

/// The pace of a run, and the name of the capture it reads.
#[derive(Clone, Copy, Debug)]
pub struct Task<'p, 'c> {
    pub pace: Pace<'p>,
    pub capture: &'c str,
}
