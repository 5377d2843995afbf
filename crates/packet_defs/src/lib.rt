//! Packets as the layers above the capture see them: header fields, flows and classes. Begin with
//! specs/Headers.antt.
#![tactic(auto)]

mod blank;
mod extra;
mod fields;
mod laws;
mod packet;

pub use blank::BLANK;
pub use extra::{ExtraFields, Header};
pub use fields::Fields;
pub use laws::classic_classes_are_kept;
pub use packet::{Departed, Packet};
