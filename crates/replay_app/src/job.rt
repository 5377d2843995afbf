//! What a command does once its inputs are accepted.
use events_core::Script;
use policy_core::Policy;
use sched_capture::{LaidPolicy, LoadSize};
use sched_defs::LinkRate;
use tap_core::Named;

/// What paces a run that no tap watches.
#[derive(Drop)]
pub enum Drive {
    /// A script.
    Script(Script),
    /// A link.
    Link(LinkRate),
    /// A link whose departures are written as a capture.
    Forward(LinkRate),
}

/// What a command does once its inputs are accepted, but for the capture, which the run reads.
#[derive(Drop)]
pub enum Job<'a> {
    /// Writes a text.
    Write(Vec<u8>),
    /// Runs a script over this capture, through the policy's own tree of queues.
    Own(Policy, Script, &'a str),
    /// Runs a script over this capture, through the fabric. The taps of these kinds watch, and the
    /// others are dropped.
    Watched(LaidPolicy, Script, Named, &'a str),
    /// Runs the packets of this capture through the fabric. Taps are left as they are.
    Alone(LaidPolicy, Drive, &'a str),
    /// Runs a generated load through the fabric.
    Load(LoadSize),
}
