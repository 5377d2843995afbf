//! Writing to standard error.
use front_core::painted;
use std::env::{self, VarError};
use std::io::{IsTerminal, Write};

/// Returns whether messages have colours: at a terminal, unless NO_COLOR is set.
fn has_colours(rt: &HostRuntime) -> bool {
    rt.stderr().is_terminal() && matches!(env::var(rt, "NO_COLOR"), Err(VarError::NotPresent))
}

/// Writes a text to standard error. Errors are ignored.
pub fn tell(rt: &HostRuntime, text: &[u8]) {
    let mut writer = rt.stderr();
    if has_colours(rt) {
        if let Ok(coloured) = painted(rt.alloc(), text) {
            let _ = writer.write_all(&coloured);
            return;
        }
    }
    let _ = writer.write_all(text);
}
