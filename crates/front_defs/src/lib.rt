//! The meaning of a command line: its names and options, the replayer's arguments that they give,
//! rates with units, and numbers in a range; and the meaning of error codes. Begin with
//! specs/Options.antt.
#![tactic(auto)]

mod causes;
mod command;
mod help;
mod names;
mod number;
mod options;
mod rate;
mod sizes;
mod unit;
mod view;

pub use causes::{Cause, cause_of};
pub use command::Command;
pub use help::{help_of, help_of_all};
pub use names::{
    COMMANDS, OPTIONS, SETTINGS, Setting, TAPS, argument_of, command_named, count_of, form_of,
    least_of, option_of, place_in_form,
};
pub use number::{Range, number_in};
pub use options::{Options, has_words, is_own, words_of};
pub use rate::{RateFault, rate_in};
pub use sizes::{Sizes, Widths};
pub use view::View;
