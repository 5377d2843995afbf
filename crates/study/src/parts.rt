//! The parts of a study: its files, what paces it, and how its outcomes are written.
use policy_text::Edition;
use sched_defs::LinkRate;
use size_core::{Limits, Widths};

/// How the outcomes are written.
#[derive(Clone, Copy, PartialEq, Eq, Debug)]
pub enum View {
    /// The report that `replay_app::run` writes.
    Report,
    /// JSON lines, as `event_json` writes them.
    Json,
    /// Sums in place of the outcomes, as text.
    Summary,
    /// Sums in place of the outcomes, as one JSON object.
    JsonSummary,
    /// How large the target's queues get, as text. Without a target, the report.
    Size(Measure),
    /// The same as one JSON object.
    JsonSize(Measure),
}

/// What is measured of a target's queues.
#[derive(Clone, Copy, PartialEq, Eq, Debug)]
pub struct Measure {
    /// Whether the queues are built from rank stores, which are then measured too.
    pub stores: bool,
    pub limits: Limits,
    /// The widths of a rank and of an entry, if the memory is wanted.
    pub widths: Option<Widths>,
}

/// What paces the run.
#[derive(Clone, Copy, Debug)]
pub enum Drive<'a> {
    /// The script file of this name.
    Script(&'a str),
    /// A link of this rate.
    Link(LinkRate),
    /// A link of this rate, whose departures are written as a capture. The view is ignored.
    Forward(LinkRate),
}

/// A run over a capture, with the names of its files.
#[derive(Clone, Copy, Debug)]
pub struct Study<'a> {
    /// The policy is read up to this edition.
    pub latest: Edition,
    pub policy: &'a str,
    /// The target into which the policy's tree is embedded. Without a target, the packets go
    /// through the policy's own tree of queues.
    pub target: Option<&'a str>,
    pub capture: &'a str,
    pub drive: Drive<'a>,
    pub view: View,
}
