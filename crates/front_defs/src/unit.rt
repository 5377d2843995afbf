//! Units of a rate.
ghost use Rattle.std.specs.Prelude.{◌≡◌, ◌≤◌, ◌^◌, IfSome};
ghost use Rattle.front_defs.specs.Rates.{parts_of, scale_of, unit_of};

/// A unit: `scale` bytes or parts of a byte, where `parts` parts make a byte.
#[derive(Clone, Copy, PartialEq, Eq, Debug)]
pub struct Unit {
    pub scale: u64,
    pub parts: u64,
}

/// Returns how many of these make a byte.
fn parts_of(name: &[u8]) -> Option<u64>
    ensures value { result ≡ parts_of name.now }
    ensures range { IfSome result (λ n. (1 ≤ n) × (n ≤ 8)) }
{
    match name {
        b"B" => Some(1),
        b"bit" => Some(8),
        _ => None,
    }
}

/// Returns the factor of a letter.
fn scale_of(letter: u8) -> Option<u64>
    ensures value { result ≡ scale_of letter }
    ensures range { IfSome result (λ n. (1 ≤ n) × (n ≤ 10 ^ 12)) }
{
    match letter {
        b'k' | b'K' => Some(1_000),
        b'm' | b'M' => Some(1_000_000),
        b'g' | b'G' => Some(1_000_000_000),
        b't' | b'T' => Some(1_000_000_000_000),
        _ => None,
    }
}

/// Parses the name of a unit. An empty name means bytes.
pub fn unit_of(name: &[u8]) -> Option<Unit>
    ensures value { result ≡ unit_of name.now }
    ensures scale { IfSome result (λ u. (1 ≤ u.scale) × (u.scale ≤ 10 ^ 12)) }
    ensures parts { IfSome result (λ u. (1 ≤ u.parts) × (u.parts ≤ 8)) }
{
    let [letter, base @ ..] = name else {
        return Some(Unit { scale: 1, parts: 1 });
    };
    match scale_of(*letter) {
        Some(scale) => {
            let parts = parts_of(base)?;
            Some(Unit { scale, parts })
        }
        None => {
            let parts = parts_of(name)?;
            Some(Unit { scale: 1, parts })
        }
    }
}
