//! Named files to read, a sink to write, and a fault count for each. Also definitions for a text that
//! is written in parts, and the lines of a report.
#![tactic(auto)]

mod faults;
mod files;
mod loading;
mod memory;
mod plain;
mod read_error;
mod shelves;
mod sinks;
mod stop;
mod system;

pub use loading::{LoadError, load};
pub use memory::{MemShelf, MemSink};
pub use plain::{PlainShelf, PlainSink};
pub use read_error::ReadError;
pub use shelves::{Shelf, ShelfError};
pub use sinks::{Sink, SinkError, write_all};
pub use stop::Stop;
pub use system::{FileShelf, StdSink};
