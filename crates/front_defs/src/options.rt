//! Options, and the replayer's arguments that they give.
ghost use Rattle.std.specs.Prelude.{◌≡◌, ◌++◌, ◌∷◌, [], IfOk, OnOk, map, string_bytes};
ghost use Rattle.front_defs.specs.Options.{names, tap_words, rate_words, words_of, is_own, has_words};

use crate::command::Command;
use crate::sizes::Sizes;
use crate::view::View;
use itoa::Buffer;
use std::alloc::{AllocError, Global};

/// The options of a command line.
#[derive(Drop)]
pub struct Options<'a> {
    pub command: Command,
    /// The command's file names in their order; for `soak`, its two numbers. A link through the
    /// policy's own tree has a policy and a capture, and no target. `size` has no script if a link
    /// paces it.
    pub files: Vec<&'a str>,
    /// The rate of a link, in bytes per second.
    pub rate: Option<u64>,
    /// Bytes that the link takes for each packet besides its length.
    pub overhead: u32,
    /// What a run writes.
    pub view: View,
    /// The limits and widths of `size`.
    pub sizes: Sizes,
    /// The names of taps.
    pub taps: Vec<&'a str>,
    /// Whether the target builds its queues from rank stores.
    pub block: bool,
    /// Whether `check` writes the policy as one of version 3.
    pub upgrade: bool,
    /// Whether standard output gets everything that the replayer writes, including its `fault`
    /// line.
    pub plain: bool,
}

/// Appends an argument. Fails if out of memory.
fn put(alloc: Global, words: &mut Vec<String>, word: &str) -> Result<(), AllocError>
    ensures { OnOk result (map string_bytes words.new.items ≡
        map string_bytes words.old.items ++ word.now ∷ []) }
{
    words.push(String::from_str(alloc, word)?)?;
    Ok(())
}

/// Appends each of the names. Fails if out of memory.
fn put_names(alloc: Global, words: &mut Vec<String>, list: &[&str]) -> Result<(), AllocError>
    ensures { OnOk result (map string_bytes words.new.items ≡
        map string_bytes words.old.items ++ names list.now) }
{
    let [name, more @ ..] = list else {
        return Ok(());
    };
    put(alloc, words, name)?;
    put_names(alloc, words, more)
}

/// Appends the arguments `tap NAME` for each tap. Fails if out of memory.
fn put_taps(alloc: Global, words: &mut Vec<String>, taps: &[&str]) -> Result<(), AllocError>
    ensures { OnOk result (map string_bytes words.new.items ≡
        map string_bytes words.old.items ++ tap_words (names taps.now)) }
{
    let [tap, more @ ..] = taps else {
        return Ok(());
    };
    put(alloc, words, "tap")?;
    put(alloc, words, tap)?;
    put_taps(alloc, words, more)
}

/// Appends the decimal digits of a rate, if there is one. Fails if out of memory.
fn put_rate(alloc: Global, words: &mut Vec<String>, rate: Option<u64>) -> Result<(), AllocError>
    ensures { OnOk result (map string_bytes words.new.items ≡
        map string_bytes words.old.items ++ rate_words rate) }
{
    let Some(rate) = rate else {
        return Ok(());
    };
    let mut digits = Buffer::new();
    put(alloc, words, digits.format(rate))
}

/// Returns the replayer's arguments that the options give. Fails if out of memory.
pub fn words_of(alloc: Global, options: &Options<'_>) -> Result<Vec<String>, AllocError>
    ensures { IfOk result (λ words. map string_bytes words.items ≡ words_of options.now) }
{
    let mut words = Vec::new(alloc);
    put(alloc, &mut words, options.command.word())?;
    put_names(alloc, &mut words, &options.files)?;
    put_rate(alloc, &mut words, options.rate)?;
    put_taps(alloc, &mut words, &options.taps)?;
    Ok(words)
}

/// Returns whether a link runs through the policy's own tree: its files are a policy and a capture.
pub fn is_own(options: &Options<'_>) -> bool
    ensures { result ≡ is_own options.now }
{
    options.command.has_link() && options.files.len() == 2
}

/// Returns whether the replayer has arguments for the options: it writes reports alone and no sizes,
/// its links take no bytes besides a packet's length, and they run through a target's queues.
pub fn has_words(options: &Options<'_>) -> bool
    ensures { result ≡ has_words options.now }
{
    options.view == View::Report
        && options.overhead == 0
        && !is_own(options)
        && !options.command.is_size()
}
