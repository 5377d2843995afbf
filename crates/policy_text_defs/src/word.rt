//! Names and reserved words.
ghost use Rattle.std.specs.Prelude.{◌≡◌, true, option_map};
ghost use Rattle.std.specs.List.{list_all, list_any};
ghost use Rattle.std.specs.Str.{bytes_eq, IsUtf8};
ghost use Rattle.text_core.specs.Tokens.{begins_word, is_word_byte};
ghost use Rattle.policy_text_defs.specs.Words.{is_reserved, is_later_reserved, is_variable, is_name, is_name_byte, is_operand, is_target, is_word, ends_in_dash, has_name, some_if, passing};

use crate::edition::Edition;

/// The greatest length of a name, in bytes.
const MOST_NAME: usize = 64;

/// The reserved words, which can't be names.
const RESERVED: [&str; 39] = [
    "policy",
    "transaction",
    "keep",
    "each",
    "push",
    "pop",
    "node",
    "leaf",
    "class",
    "using",
    "children",
    "classes",
    "when",
    "and",
    "or",
    "not",
    "min",
    "max",
    "if",
    "prio",
    "weight",
    "slack",
    "len",
    "now",
    "rank",
    "src",
    "dst",
    "sport",
    "dport",
    "proto",
    "dscp",
    "vlan",
    "ipv4",
    "ipv6",
    "tcp",
    "udp",
    "icmp",
    "shape",
    "limit",
];

/// The words that only the third edition reserves.
const LATER_RESERVED: [&str; 9] = [
    "flow",
    "packets",
    "bytes",
    "per",
    "by",
    "tcpflags",
    "pcp",
    "ethertype",
    "any",
];

/// The reserved words that denote numbers in expressions.
const VARIABLES: [&str; 6] = ["len", "now", "prio", "weight", "slack", "rank"];

/// Returns whether a word is spelled like the text.
pub fn is(word: &[u8], text: &str) -> bool
    ensures { result ≡ bytes_eq word.now text.now }
{
    word == text.as_bytes()
}

/// Returns whether a word is one of the words.
pub fn is_among(word: &[u8], words: &[&str]) -> bool
    ensures { result ≡ list_any (λ w. bytes_eq word.now w.now) words.now }
{
    words.iter().any(|other| word == other.as_bytes())
}

fn is_reserved(word: &[u8]) -> bool
    ensures { result ≡ is_reserved word.now }
{
    is_among(word, &RESERVED)
}

fn is_later_reserved(word: &[u8]) -> bool
    ensures { result ≡ is_later_reserved word.now }
{
    is_among(word, &LATER_RESERVED)
}

/// Returns whether the bytes are a word: a letter or `_`, then letters, digits, `_` and `-`, where
/// the last byte isn't `-`.
fn is_word(bytes: &[u8]) -> bool
    ensures { result ≡ is_word bytes.now }
{
    begins_word(bytes) && are_name_bytes(bytes) && !ends_in_dash(bytes)
}

fn are_name_bytes(bytes: &[u8]) -> bool
    ensures { result ≡ list_all is_name_byte bytes.now }
{
    bytes.iter().all(|byte| is_name_byte(*byte))
}

fn is_name_byte(byte: u8) -> bool
    ensures { result ≡ is_name_byte byte }
{
    is_word_byte(byte) || byte == b'-'
}

fn ends_in_dash(bytes: &[u8]) -> bool
    ensures { result ≡ ends_in_dash bytes.now }
{
    match bytes {
        [.., last] => *last == b'-',
        [] => false,
    }
}

fn are_word_bytes(bytes: &[u8]) -> bool
    ensures { result ≡ list_all is_word_byte bytes.now }
{
    bytes.iter().all(|byte| is_word_byte(*byte))
}

fn begins_word(bytes: &[u8]) -> bool
    ensures { result ≡ begins_word bytes.now }
{
    match bytes {
        [first, ..] => first.is_ascii_alphabetic() || *first == b'_',
        [] => false,
    }
}

fn is_word_byte(byte: u8) -> bool
    ensures { result ≡ is_word_byte byte }
{
    byte.is_ascii_alphabetic() || byte == b'_' || byte.is_ascii_digit()
}

fn is_name(word: &[u8]) -> bool
    ensures { result ≡ is_name word.now }
{
    is_word(word) && word.len() <= MOST_NAME && !is_reserved(word)
}

/// Returns whether a name or operand has only what the edition allows: no `-` in the classic one,
/// and none of the words that the third one reserves.
pub fn has_name(edition: Edition, word: &[u8]) -> bool
    ensures { result ≡ has_name edition word.now }
{
    match edition {
        Edition::Classic => are_word_bytes(word),
        Edition::Third => !is_later_reserved(word),
    }
}

/// Returns whether a word is a reserved word for a number in expressions: `len`, `now`, `prio`,
/// `weight`, `slack` or `rank`.
pub fn is_variable(word: &[u8]) -> bool
    ensures { result ≡ is_variable word.now }
{
    is_among(word, &VARIABLES)
}

fn is_operand(word: &[u8]) -> bool
    ensures { result ≡ is_operand word.now }
{
    is_name(word) || is_variable(word)
}

fn is_target(word: &[u8]) -> bool
    ensures { result ≡ is_target word.now }
{
    is_name(word) || is(word, "rank")
}

/// Returns the text of a word if it passed a test.
fn text_if(passes: bool, word: &[u8]) -> Option<&str>
    requires { passes ≡ true → IsUtf8 word.now }
    ensures { option_map (λ s. s.now) result ≡ some_if passes word.now }
{
    if !passes {
        return None;
    }
    str::from_utf8(word).ok()
}

/// Returns the text of a word if it is a name.
#[tactic(auto, using(crate::proofs::WordLaws::is_name_utf8))]
pub fn name_of(word: &[u8]) -> Option<&str>
    ensures { option_map (λ s. s.now) result ≡ passing is_name word.now }
{
    text_if(is_name(word), word)
}

/// Returns the text of a word if it is a name or one of `len`, `now`, `prio`, `weight`, `slack` and
/// `rank`.
#[tactic(auto, using(crate::proofs::WordLaws::is_operand_utf8))]
pub fn operand_of(word: &[u8]) -> Option<&str>
    ensures { option_map (λ s. s.now) result ≡ passing is_operand word.now }
{
    text_if(is_operand(word), word)
}

/// Returns the text of a word if it is a name or `rank`.
#[tactic(auto, using(crate::proofs::WordLaws::is_target_utf8))]
pub fn target_of(word: &[u8]) -> Option<&str>
    ensures { option_map (λ s. s.now) result ≡ passing is_target word.now }
{
    text_if(is_target(word), word)
}
