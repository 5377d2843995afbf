//! Push-in first-out queues that are updated in place, and the trait that they implement. Begin
//! with src/pifo.rt and specs/Taking.antt.
#![tactic(auto)]

mod heap;
mod held;
mod pifo;
mod sorted;

pub use heap::HeapPifo;
pub use pifo::Pifo;
pub use sorted::SortedPifo;
