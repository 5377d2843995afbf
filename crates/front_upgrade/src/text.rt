//! The text of version 3, and the lines of its statements.
ghost use Rattle.std.specs.Prelude.{◌≡◌, IfOk, drop};
ghost use Rattle.replay_app.specs.Policies.{entries_in};
ghost use Rattle.front_upgrade.specs.Upgraded.{AreSound, upgraded_text, line_at};

use policy_text::{Lines, print};
use std::alloc::{AllocError, Global};

/// The first line of a policy of version 3.
const FIRST_LINE: &[u8] = b"policy 3\n";

/// Returns the bytes after a first line of the length of `FIRST_LINE`.
fn behind_first_line(text: &[u8]) -> &[u8]
    ensures { result.now ≡ drop 9 text.now }
{
    match text {
        [_, _, _, _, _, _, _, _, _, rest @ ..] => rest,
        _ => &[],
    }
}

/// Returns the statements as a canonical text of version 3. In the text of an accepted policy, the
/// lines after the first are unchanged.
pub fn upgraded_text(alloc: Global, lines: &Lines) -> Result<Vec<u8>, AllocError>
    ensures { AreSound (entries_in lines.now) → IfOk result (λ text. text.items ≡
        upgraded_text (entries_in lines.now)) }
{
    let printed = print(alloc, lines)?;
    let mut text = Vec::new(alloc);
    text.extend_from_slice(FIRST_LINE)?;
    text.extend_from_slice(behind_first_line(printed.as_slice()))?;
    Ok(text)
}

/// Returns the line of the statement with this number, counted from 1, or 0 if there is none.
pub fn line_at(lines: &Lines, number: u32) -> u32
    ensures { result ≡ line_at (entries_in lines.now) number }
{
    let Some(place) = number.checked_sub(1) else {
        return 0;
    };
    match lines.entries().get(place as usize) {
        Some((line, _)) => *line,
        None => 0,
    }
}
