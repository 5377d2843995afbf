//! The exit statuses of a program that nothing stops.
ghost use Rattle.std.specs.Prelude.{◌≡◌};
ghost use Rattle.replay_app.specs.Statuses.{status_code, kind_status, run_status, forward_status};

use report_core::FaultKind;
use sched_capture::ForwardEnding;
use sched_defs::Ending;

/// How the program ends if nothing stops it.
#[derive(Clone, Copy, PartialEq, Eq, Debug)]
pub enum Status {
    /// The command's output was written whole.
    Done,
    /// The arguments are malformed.
    NoForm,
    /// The policy is rejected.
    BadPolicy,
    /// The target is rejected.
    BadTarget,
    /// The target has no room for the policy's tree, or for the topology.
    NoRoom,
    /// The script is rejected, or asks for a packet after the last.
    BadScript,
    /// The capture has an error.
    BadCapture,
    /// The topology is rejected.
    BadTree,
    /// The map is rejected.
    BadMap,
    /// A departure would start at 2^32 seconds or later.
    LateStart,
    /// A packet has another link type than the first.
    OtherLink,
    /// A queue passed a limit. No run of `run` ends so.
    OverLimit,
}

impl Status {
    /// Returns the program's exit status.
    pub fn code(self) -> u8
        ensures { result ≡ status_code self }
    {
        match self {
            Status::Done => 0,
            Status::NoForm => 2,
            Status::BadPolicy => 3,
            Status::BadTarget => 4,
            Status::NoRoom => 5,
            Status::BadScript => 6,
            Status::BadCapture => 7,
            Status::BadTree => 12,
            Status::BadMap => 13,
            Status::LateStart => 14,
            Status::OtherLink => 15,
            Status::OverLimit => 1,
        }
    }

    /// Returns the status for a rejected input of this kind.
    pub fn refused(kind: FaultKind) -> Status
        ensures { result ≡ kind_status kind }
    {
        match kind {
            FaultKind::Words => Status::NoForm,
            FaultKind::Policy => Status::BadPolicy,
            FaultKind::Target => Status::BadTarget,
            FaultKind::Size => Status::NoRoom,
            FaultKind::Script => Status::BadScript,
            FaultKind::Capture => Status::BadCapture,
            FaultKind::Tree => Status::BadTree,
            FaultKind::Map => Status::BadMap,
        }
    }

    /// Returns the status of a run with this ending.
    pub fn of_run(ending: Ending) -> Status
        ensures { result ≡ run_status ending }
    {
        match ending {
            Ending::Whole(_) => Status::Done,
            Ending::PastLast(_) => Status::BadScript,
            Ending::BadCapture(_, _) => Status::BadCapture,
        }
    }

    /// Returns the status of a run with this ending, whose departures are written as a capture.
    pub fn of_forward(ending: ForwardEnding) -> Status
        ensures { result ≡ forward_status ending }
    {
        match ending {
            ForwardEnding::Whole => Status::Done,
            ForwardEnding::BadCapture(_, _) => Status::BadCapture,
            ForwardEnding::OtherLink(_) => Status::OtherLink,
            ForwardEnding::Late => Status::LateStart,
        }
    }
}
