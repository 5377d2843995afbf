//! What a policy's tree of queues does with packets, one event at a time, and the report of a run.
//! Begin with specs/SourceState.antt.
#![tactic(auto)]

mod ending;
mod laws;
mod link;
mod packets;
mod rate;

pub use ending::{Ending, PAST_LAST};
pub use laws::{
    classic_limits_fill_leaves, courses_can_be_made, drains_leave_nothing, events_join,
    events_keep_states_sound, held_packets_stand_in_leaves, links_send_all, links_send_what_is_due,
    packets_keep_to_their_leaves,
};
pub use link::send_time_is_least;
pub use packets::Packets;
pub use rate::LinkRate;
