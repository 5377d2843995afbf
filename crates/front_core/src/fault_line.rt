//! The `fault` line.
ghost use Rattle.std.specs.Prelude.{◌≡◌, ◌≤◌, ◌<◌, length, take, drop, IsTrue};
ghost use Rattle.std.specs.List.{prefix_len};
ghost use Rattle.text_core.specs.Lines.{is_text};
ghost use Rattle.front_core.specs.FaultLine.{begins_fault, is_one_line, is_fault_line, most_held};

/// The most bytes of a `fault` line.
pub const MOST_HELD: usize = 64;

/// Returns the bytes from an index on.
pub fn bytes_from(bytes: &[u8], at: usize) -> &[u8]
    requires { at ≤ length bytes.now }
    ensures { result.now ≡ drop at bytes.now }
{
    &bytes[at..]
}

/// Returns the bytes before an index.
pub fn bytes_to(bytes: &[u8], end: usize) -> &[u8]
    requires { end ≤ length bytes.now }
    ensures value { result.now ≡ take end bytes.now }
    ensures count { length result.now ≡ end }
{
    &bytes[..end]
}

/// Returns the number of bytes before the end of the first line.
fn line_length(bytes: &[u8]) -> usize
    ensures { result ≡ prefix_len is_text bytes.now }
{
    bytes.iter().take_while(|byte| **byte != b'\n').count()
}

/// Returns whether the bytes are one line with its line end.
fn is_one_line(bytes: &[u8]) -> bool
    ensures value { result ≡ is_one_line bytes.now }
    ensures some { IsTrue result → 0 < length bytes.now }
{
    !bytes.is_empty() && line_length(bytes) == bytes.len() - 1
}

/// Returns whether the bytes begin as a `fault` line does.
fn begins_fault(bytes: &[u8]) -> bool
    ensures { result ≡ begins_fault bytes.now }
{
    match &bytes[..bytes.len().min(6)] {
        b"fault " => true,
        _ => false,
    }
}

/// Returns whether the bytes are one line with its line end that begins as a `fault` line does.
pub fn is_fault_line(bytes: &[u8]) -> bool
    ensures value { result ≡ is_fault_line bytes.now }
    ensures short { IsTrue result → length bytes.now ≤ most_held }
    ensures some { IsTrue result → 0 < length bytes.now }
{
    bytes.len() <= MOST_HELD && is_one_line(bytes) && begins_fault(bytes)
}

/// Returns the number of bytes before the last line, if that is a `fault` line after other bytes.
/// Otherwise returns the number of all bytes.
pub fn before_fault(bytes: &[u8]) -> usize
    requires { 0 < length bytes.now }
    ensures some { 0 < result }
    ensures within { result ≤ length bytes.now }
{
    let mut at = bytes.len() - 1;
    while 0 < at {
        if bytes[at - 1] == b'\n' {
            return if is_fault_line(&bytes[at..]) {
                at
            } else {
                bytes.len()
            };
        }
        at -= 1;
    }
    bytes.len()
}
