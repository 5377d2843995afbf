//! The last line of a report: the end of a run, or a rejected input.
ghost use Rattle.std.specs.Prelude.{◌≡◌, ◌+◌, ◌≤◌, ◌++◌, length, take, decimal, codes, MatchOption};
ghost use Rattle.outside_core.specs.Report.{end_line, fault_line};
ghost use Rattle.report_core.specs.Faults.{word_of};
ghost use Rattle.report_core.specs.Gathered.{line_room};

use crate::fault::FaultKind;
use crate::line::{put_array, put_bytes, put_number};

/// Writes a number of the last line, with its word before it.
fn put_count(line: &mut [u8], at: usize, word: &[u8], count: u64) -> usize
    requires word { length word.now ≤ 9 }
    requires room { at + 29 ≤ length line.old }
    ensures text { take result line.new ≡ take at line.old ++ word.now ++ decimal count }
    ensures short { result ≤ at + 29 }
    ensures length { length line.new ≡ length line.old }
{
    let word_end = put_bytes(line, at, word);
    put_number(line, word_end, count)
}

/// Writes the count of dropped packets, if it is shown.
fn put_dropped(line: &mut [u8], at: usize, dropped: Option<u64>) -> usize
    requires room { at + 29 ≤ length line.old }
    ensures text { MatchOption dropped (take result line.new ≡ take at line.old)
        (λ count. take result line.new ≡ take at line.old ++ codes " dropped " ++ decimal count) }
    ensures short { result ≤ at + 29 }
    ensures length { length line.new ≡ length line.old }
{
    let Some(dropped) = dropped else {
        return at;
    };
    put_count(line, at, b" dropped ", dropped)
}

/// Writes the line of a run's end at an offset, and returns the offset after it.
pub fn put_end(
    line: &mut [u8],
    at: usize,
    pushed: u64,
    popped: u64,
    empty: u64,
    held: u64,
    unsent: u64,
    dropped: Option<u64>,
) -> usize
    requires room { at + line_room ≤ length line.old }
    ensures text { take result line.new ≡ take at line.old ++ end_line pushed popped empty held
        unsent dropped }
    ensures within { result ≤ length line.new }
    ensures length { length line.new ≡ length line.old }
{
    let word_end = put_bytes(line, at, b"end");
    let pushed_end = put_count(line, word_end, b" pushed ", pushed);
    let popped_end = put_count(line, pushed_end, b" popped ", popped);
    let empty_end = put_count(line, popped_end, b" empty ", empty);
    let held_end = put_count(line, empty_end, b" held ", held);
    let unsent_end = put_count(line, held_end, b" unsent ", unsent);
    let end = put_dropped(line, unsent_end, dropped);
    put_array(line, end, *b"\n")
}

/// Writes the line of a rejected input in the same way.
pub fn put_fault(line: &mut [u8], at: usize, kind: FaultKind, code: u32, place: u64) -> usize
    requires room { at + line_room ≤ length line.old }
    ensures text { take result line.new ≡
        take at line.old ++ fault_line (word_of kind) code place }
    ensures within { result ≤ length line.new }
    ensures length { length line.new ≡ length line.old }
{
    let kind_at = put_bytes(line, at, b"fault ");
    let kind_end = put_bytes(line, kind_at, kind.word().as_bytes());
    let code_at = put_array(line, kind_end, *b" ");
    let code_end = put_number(line, code_at, code as u64);
    let place_at = put_array(line, code_end, *b" ");
    let end = put_number(line, place_at, place);
    put_array(line, end, *b"\n")
}
