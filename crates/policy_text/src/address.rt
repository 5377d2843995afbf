//! IPv6 addresses as numbers.
ghost use Rattle.std.specs.Prelude.{◌≡◌, ◌%◌, [], ◌∷◌};
ghost use Rattle.std.specs.Net.Addr.{ipv6_segments};
ghost use Rattle.policy_text_defs.specs.Canonical.{segments_of};
ghost use Rattle.policy_text_defs.specs.TestReading as spec;
ghost use Rattle.policy_text_defs.specs.Tests.{joined};

use std::net::Ipv6Addr;

/// Returns the number of four segments, the most significant first.
fn four(a: u16, b: u16, c: u16, d: u16) -> u64
    ensures { result ≡ joined (a ∷ b ∷ c ∷ d ∷ []) }
{
    ((a as u64 * 65_536 + b as u64) * 65_536 + c as u64) * 65_536 + d as u64
}

/// Returns the number of an address.
fn number_of(address: Ipv6Addr) -> u128
    ensures { result ≡ joined (ipv6_segments address) }
{
    let [a, b, c, d, e, f, g, h] = address.segments();
    four(a, b, c, d) as u128 * 18_446_744_073_709_551_616 + four(e, f, g, h) as u128
}

/// Returns the number of the IPv6 address that a word spells.
#[tactic(auto, using(policy_text_defs::proofs::TestLaws::ipv6_reads, policy_text_defs::proofs::TestLaws::ipv6_none))]
pub fn ipv6_of(word: &[u8]) -> Option<u128>
    ensures { result ≡ spec.ipv6_of word.now }
{
    match Ipv6Addr::parse_ascii(word) {
        Ok(address) => Some(number_of(address)),
        Err(_) => None,
    }
}

/// Returns the last segment of a number.
fn last_segment(number: u128) -> u16
    ensures { result ≡ number % 65536 }
{
    (number % 65_536) as u16
}

/// Returns the address with this number.
pub fn address_of(number: u128) -> Ipv6Addr
    ensures { ipv6_segments result ≡ segments_of number }
{
    let seven = number / 65_536;
    let six = seven / 65_536;
    let five = six / 65_536;
    let four = five / 65_536;
    let three = four / 65_536;
    let two = three / 65_536;
    let one = two / 65_536;
    Ipv6Addr::new(
        last_segment(one),
        last_segment(two),
        last_segment(three),
        last_segment(four),
        last_segment(five),
        last_segment(six),
        last_segment(seven),
        last_segment(number),
    )
}
