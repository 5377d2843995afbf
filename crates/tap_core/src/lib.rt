//! Taps, which observe the departures and drops of a run. Begin with specs/Steps.antt.
#![tactic(auto)]

mod bytes;
mod drops;
mod first;
mod kinds;
mod line;
mod order;
mod tally;
mod tap;
mod watch;
mod watching;

pub use bytes::BytesTap;
pub use drops::DropsTap;
pub use first::{FirstTap, MAX_LIMIT};
pub use kinds::{Dropped, Seen, TapKind};
pub use order::OrderTap;
pub use tap::Tap;
pub use watch::{Named, keep_named, lines, show_departed, show_dropped, slots};
pub use watching::Watching;
