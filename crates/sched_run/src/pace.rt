//! The pace of a run.
use events_core::Step;
use sched_defs::LinkRate;

/// Paces a run: the steps of a script, or a link that sends one packet after another.
#[derive(Clone, Copy, Debug)]
pub enum Pace<'a> {
    Script(&'a [Step]),
    Link(LinkRate),
}
