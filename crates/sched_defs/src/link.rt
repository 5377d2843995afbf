//! The law of the time that a link takes to send a packet.
ghost use Rattle.sched_defs.specs.SendTime.{SendTimeIsLeast};

/// The send time is the smallest whole number of nanoseconds in which the bytes can go.
pub fn send_time_is_least()
    ensures { SendTimeIsLeast }
{}
