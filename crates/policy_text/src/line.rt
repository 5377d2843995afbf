//! Reads one line: its blanks, its first word and its statement.
ghost use Rattle.std.specs.Prelude.{◌≡◌, ◌≤◌, length, IfOk};
ghost use Rattle.std.specs.List.{prefix_len, list_all};
ghost use Rattle.policy_text_defs.specs.Sense.{Sense, sense_of};
ghost use Rattle.policy_text_defs.specs.Text.{is_shaping};
ghost use Rattle.policy_text.specs.Parsing.{HasForm, LineIs};
ghost use Rattle.policy_text.specs.States.{States};
ghost use Rattle.text_core.specs.Lines.{is_clean_text};
ghost use Rattle.text_core.specs.Tokens.{is_blank, is_word_byte};

use crate::fault::TextFault;
use crate::statements::parse_statement;
use policy_text_defs::{Mode, Statement, is};
use std::alloc::Global;
use text_core::{Refusal, items_in};

fn is_blank(byte: u8) -> bool
    ensures { result ≡ is_blank byte }
{
    matches!(byte, b' ' | b'\t')
}

fn are_blanks(bytes: &[u8]) -> bool
    ensures { result ≡ list_all is_blank bytes.now }
{
    bytes.iter().all(|byte| is_blank(*byte))
}

/// Returns how many leading bytes are blanks.
fn blanks(bytes: &[u8]) -> usize
    ensures count { result ≡ prefix_len is_blank bytes.now }
    ensures within { result ≤ length bytes.now }
{
    bytes.iter().take_while(|byte| is_blank(**byte)).count()
}

fn is_word_byte(byte: u8) -> bool
    ensures { result ≡ is_word_byte byte }
{
    byte.is_ascii_alphabetic() || byte == b'_' || byte.is_ascii_digit()
}

/// Returns how many leading bytes belong to a word.
fn word_bytes(bytes: &[u8]) -> usize
    ensures count { result ≡ prefix_len is_word_byte bytes.now }
    ensures within { result ≤ length bytes.now }
{
    bytes.iter().take_while(|byte| is_word_byte(**byte)).count()
}

/// Returns whether the first word of a line is `shape`.
fn is_shaping(line: &[u8]) -> bool
    ensures { result ≡ is_shaping line.now }
{
    let rest = &line[blanks(line)..];
    is(&rest[..word_bytes(rest)], "shape")
}

/// Returns the statement that the tokens of a line form.
fn statement_of(alloc: Global, line: &[u8], mode: Mode) -> Result<Statement, Refusal>
    ensures found { IfOk result (λ t. HasForm mode line.now (sense_of t)) }
    ensures only { (s : Sense) → HasForm mode line.now s → States result s }
{
    let items = items_in(alloc, line, mode.dialect())?;
    parse_statement(alloc, items.as_slice(), mode)
}

/// Returns the statement of the line with this number, or `None` if the line is blank.
pub fn read_line(
    alloc: Global,
    line: &[u8],
    clean: bool,
    number: u32,
    mode: Mode,
) -> Result<Option<Statement>, TextFault>
    requires { clean ≡ is_clean_text line.now }
    ensures { LineIs mode line.now number result }
{
    if !clean {
        return Err(TextFault::NotText(number));
    }
    if is_shaping(line) {
        return Err(TextFault::Shaping(number));
    }
    if are_blanks(line) {
        return Ok(None);
    }
    match statement_of(alloc, line, mode) {
        Ok(statement) => Ok(Some(statement)),
        Err(Refusal::NoForm) => Err(TextFault::Syntax(number)),
        Err(Refusal::NoMemory) => Err(TextFault::NoMemory),
    }
}
