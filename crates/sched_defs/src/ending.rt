//! How a run ends.
ghost use Rattle.std.specs.Prelude.{◌≡◌};
ghost use Rattle.sched_defs.specs.Script.{ends_at_fault};

/// The error code of a script that asks for a packet past the last. It follows the codes of
/// malformed scripts.
pub const PAST_LAST: u32 = 3;

/// How a run that isn't stopped ends.
#[derive(Clone, Copy, PartialEq, Eq, Debug)]
pub enum Ending {
    /// Everything is done, and this many packets weren't sent.
    Whole(u64),
    /// The capture has a fault with this code, at the record with this number. The number is 0 if
    /// there is none.
    BadCapture(u32, u64),
    /// The event with this number asks for a packet past the last.
    PastLast(u64),
}

impl Ending {
    /// Returns the ending, if it is at a fault of the capture.
    pub fn at_fault(self) -> Option<Ending>
        ensures { result ≡ ends_at_fault self }
    {
        match self {
            Ending::BadCapture(_, _) => Some(self),
            Ending::Whole(_) | Ending::PastLast(_) => None,
        }
    }
}
