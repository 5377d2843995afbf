//! The count of a run's events so far, and its totals.
ghost use Rattle.std.specs.Prelude.{◌≡◌, ◌≤◌, ◌<◌, ◌+◌, ◌^◌};
ghost use Rattle.sched_run.specs.Stages.{IsFresh};
ghost use Rattle.sched_run.specs.Totals.{HasTotals, AreTotals};

/// The count of a run's events so far.
#[derive(Clone, Copy, Debug)]
pub(crate) struct Tally {
    /// How many packets arrived, dropped ones included.
    pub(crate) came: u64,
    /// How many of them were dropped.
    pub(crate) dropped: u64,
    /// How many departures were made, including those that found no packet.
    pub(crate) asked: u64,
}

/// The totals of a run.
#[derive(Clone, Copy, Debug)]
pub struct Totals {
    pub pushed: u64,
    pub popped: u64,
    /// How many departures found no packet.
    pub empty: u64,
    pub held: u64,
    /// How many packets were dropped, if the last line shows it.
    pub dropped: Option<u64>,
}

impl Tally {
    /// Returns the count of no events.
    pub(crate) fn new() -> Tally
        ensures { IsFresh result }
    {
        Tally {
            came: 0,
            dropped: 0,
            asked: 0,
        }
    }

    /// Returns the totals of a run that began with `first` packets queued and has `held` queued
    /// now.
    pub(crate) fn totals(self, first: u64, held: u64, version: u32) -> Totals
        requires { HasTotals self first held }
        ensures { AreTotals self first held version result }
    {
        let pushed = self.came - self.dropped;
        let popped = first + pushed - held;
        Totals {
            pushed,
            popped,
            empty: self.asked - popped,
            held,
            dropped: (version >= 2).then_some(self.dropped),
        }
    }
}
