//! Runs a script or a link over packets that are read one by one, with any scheduler. Writes the
//! report, and shows departures and drops to the taps that watch. Begin with specs/Courses.antt.
#![tactic(auto)]

mod course;
mod departure;
mod drawing;
mod laws;
mod link;
mod load;
mod names;
mod pace;
mod recorder;
mod report;
mod run;
mod steps;
mod sum;
mod tally;

pub use departure::{Departure, DepartureRecorder, IntoDeparture};
pub use drawing::Drawing;
pub use laws::{loads_leave_nothing, runs_begin_at_the_start};
pub use load::MOST_LOAD;
pub use names::NameTable;
pub use pace::Pace;
pub use recorder::Recorder;
pub use report::depart_line;
pub use run::Run;
pub use sum::DepartureSum;
pub use tally::Totals;
