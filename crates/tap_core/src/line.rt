//! The line that a tap prints.
ghost use Rattle.std.specs.Prelude.{◌≡◌, ◌++◌, OnOk, OnErr};
ghost use Rattle.outside_core.specs.Report.{line_of};
ghost use Rattle.tap_core.specs.Lines.{words_of};

use std::alloc::AllocError;
use text_core::put_decimal;

/// Appends the line of a tap: the name of its kind, and its numbers. The error is out of memory.
pub fn put_line(into: &mut Vec<u8>, name: &str, numbers: &[u64]) -> Result<(), AllocError>
    ensures ok { OnOk result (into.new.items ≡ into.old.items ++ line_of
        (words_of name.now numbers.now)) }
    ensures err { OnErr result (into.new.items ≡ into.old.items) }
{
    let mut line = Vec::from_slice(*into.allocator(), b"tap ")?;
    line.extend_from_slice(name.as_bytes())?;
    for number in numbers {
        line.extend_from_slice(b" ")?;
        put_decimal(&mut line, *number as u128)?;
    }
    line.extend_from_slice(b"\n")?;
    into.extend_from_slice(&line)
}
