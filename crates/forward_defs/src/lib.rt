//! The contents of a capture of departures, and the end of a run that writes one. Begin with
//! specs/Forwarded.antt.
#![tactic(auto)]

mod laws;

pub use laws::{
    a_late_departure_ends_a_run, captures_of_one_link_are_whole,
    forwarded_departures_are_read_back, forwarded_runs_are_read_back,
    records_in_turn_are_forwarded,
};
