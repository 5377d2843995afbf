//! Whole numbers in a range.
ghost use Rattle.std.specs.Prelude.{◌≡◌, ◌≤◌, IfSome};
ghost use Rattle.front_defs.specs.Numbers.{number_in};

use text_core::decimal;

/// The whole numbers from `least` to `most`.
#[derive(Clone, Copy, PartialEq, Eq, Debug)]
pub struct Range {
    pub least: u64,
    pub most: u64,
}

/// Parses a whole number. Returns none if the word has other bytes than digits, or if the number
/// isn't in the range.
pub fn number_in(word: &[u8], range: Range) -> Option<u64>
    ensures value { result ≡ number_in word.now range }
    ensures range { IfSome result (λ n. (range.least ≤ n) × (n ≤ range.most)) }
{
    let number = decimal(word)?;
    if number < range.least || number > range.most {
        return None;
    }
    Some(number)
}
