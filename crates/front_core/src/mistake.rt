//! Mistakes in a command line.
use front_defs::{Command, Range, RateFault, Setting, View};
use std::alloc::{AllocError, AllocFailed};

/// A mistake in a command line.
#[derive(Clone, Copy, PartialEq, Eq, Debug)]
pub enum Mistake<'a> {
    /// No command is given.
    NoCommand,
    /// There is no command of this name.
    UnknownCommand(&'a str),
    /// There is no option of this name.
    UnknownOption(&'a str),
    /// This option needs a value.
    NoValue(&'a str),
    /// This option needs a value, and an argument that begins with `-` follows it.
    OptionForValue(&'a str, &'a str),
    /// The value of this option is empty.
    EmptyValue(&'a str),
    /// This output is a second one.
    OutputTwice(&'a str),
    /// The argument with this index, counted from 0, is missing.
    Missing(Command, usize),
    /// The argument with this index, counted from 0, is empty.
    Empty(Command, usize),
    /// No name of a tap follows the argument `tap`.
    NoTapName,
    /// This argument is one too many.
    Unexpected(Command, &'a str),
    /// The argument is not a rate.
    NoRate(Command, &'a str, RateFault),
    /// There is no tap of this name.
    UnknownTap(&'a str),
    /// A tap of this name is named twice.
    TapTwice(&'a str),
    /// This command has no taps.
    NoTaps(Command),
    /// This command doesn't run on rank stores.
    NoBlock(Command),
    /// This command has no policy to write as one of version 3.
    NoUpgrade(Command),
    /// This command runs on rank stores only through a target, and none is given.
    BlockWithoutTarget(Command),
    /// The argument or the value of the option with this name is not a whole number in this range.
    NoNumber(Command, &'static str, &'a str, Range),
    /// This command doesn't have this option.
    NoSetting(Command, Setting),
    /// This value of an option is a second one.
    SettingTwice(Setting, &'a str),
    /// The first option has an effect only with the second one, which isn't given.
    SettingAlone(Command, Setting, Setting),
    /// Both this script and a rate are given.
    ScriptAndRate(&'a str),
    /// This command doesn't have this option for events or sums.
    NoView(Command, View),
    /// Two of the options for events and sums are given.
    TwoViews,
    /// Taps are given with this option for events or sums.
    TapsWithView(View),
    /// There is no such form of sums.
    NoSummary(&'a str),
    /// The output would overwrite this input.
    OverInput(&'a str),
    /// Out of memory.
    NoMemory,
}

impl<'a> From<AllocError> for Mistake<'a> {
    fn from(_: AllocError) -> Self {
        Mistake::NoMemory
    }
}

impl<'a, T: Drop> From<AllocFailed<T>> for Mistake<'a> {
    fn from(_: AllocFailed<T>) -> Self {
        Mistake::NoMemory
    }
}
