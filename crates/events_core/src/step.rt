//! The step that one line of a script requests.
ghost use Rattle.std.specs.Prelude.{◌≡◌};
ghost use Rattle.events_core.specs.Steps.{count_of, word_step, counted_step};

/// The step that a line of a script requests.
#[derive(Clone, Copy, Debug, PartialEq, Eq)]
pub enum Step {
    /// This many arrivals, each of the next packet.
    Arrive(u64),
    /// This many departures.
    Depart(u64),
    /// Arrivals until no packet is left.
    Rest,
    /// Departures until no packet is queued.
    Drain,
}

impl Step {
    /// Returns the number that the step adds to the counts of a script.
    pub fn count(self) -> u64
        ensures { result ≡ count_of self }
    {
        match self {
            Step::Arrive(count) | Step::Depart(count) => count,
            Step::Rest | Step::Drain => 0,
        }
    }

    /// Returns the step of a word.
    pub(crate) fn of(word: &[u8]) -> Option<Step>
        ensures { result ≡ word_step word.now }
    {
        match word {
            b"a" => Some(Step::Arrive(1)),
            b"d" => Some(Step::Depart(1)),
            b"rest" => Some(Step::Rest),
            b"drain" => Some(Step::Drain),
            _ => None,
        }
    }

    /// Returns the step of a word with a count.
    pub(crate) fn counted(word: &[u8], count: u64) -> Option<Step>
        ensures { result ≡ counted_step word.now count }
    {
        match word {
            b"a" => Some(Step::Arrive(count)),
            b"d" => Some(Step::Depart(count)),
            _ => None,
        }
    }
}
