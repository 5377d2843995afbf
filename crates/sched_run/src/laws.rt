//! The laws of the start and of loads.
ghost use Rattle.sched_run.specs.Stages.{StartsCanBegin};
ghost use Rattle.sched_run.specs.Load.{LoadsLeaveNothing};

/// A run can begin at the start of a policy, however many packets were read before.
pub fn runs_begin_at_the_start()
    ensures { StartsCanBegin }
{}

/// After a generated load from the start no packet is queued, and as many packets were popped as
/// were pushed. The premises are those of `play_load`: the policy is accepted and has eight classes
/// or more, and at most 1,000,000 events are drawn.
pub fn loads_leave_nothing()
    ensures { LoadsLeaveNothing }
{}
