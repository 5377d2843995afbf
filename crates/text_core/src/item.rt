//! The meaning of the tokens of a line.
ghost use Rattle.std.specs.Prelude.{◌≡◌, List, IfOk};
ghost use Rattle.text_core.specs.Glyphs.{Glyph, glyphs_of};
ghost use Rattle.text_core.specs.Says.{Says, SaysIn};

use crate::dialect::Dialect;
use crate::mark::Mark;
use crate::number::decimal;
use crate::refusal::Refusal;
use crate::token::{TokenKind, tokens_in};
use list_core::List;
use std::alloc::Global;

/// The meaning of a token: a word, a number or a mark.
#[derive(Clone, Copy, Debug)]
pub enum Item<'a> {
    Word(&'a [u8]),
    Number(u64),
    Mark(Mark),
}

impl<'a> Item<'a> {
    ghost use Rattle.std.specs.Prelude.{◌≡◌, option_map};
    ghost use Rattle.text_core.specs.Glyphs.{glyph_of};
    ghost use Rattle.text_core.specs.Says.{said};

    /// Returns the meaning of a token of this kind with these bytes, or `None` if its number is too
    /// large.
    pub fn of(kind: TokenKind, bytes: &'a [u8]) -> Option<Item<'a>>
        ensures { option_map glyph_of result ≡ said kind bytes.now }
    {
        Some(match kind {
            TokenKind::Word => Item::Word(bytes),
            TokenKind::Number => Item::Number(decimal(bytes)?),
            TokenKind::Mark => Item::Mark(Mark::of(bytes)?),
        })
    }
}

/// Returns the meaning of the tokens of a line of this dialect. A line is malformed if it has a bad
/// token or a number above `MAX`.
pub fn items_in<'a>(
    alloc: Global,
    line: &'a [u8],
    dialect: Dialect,
) -> Result<List<Item<'a>>, Refusal>
    ensures said { IfOk result (λ is. SaysIn dialect line.now (glyphs_of is)) }
    ensures silent { result ≡ Err Refusal.NoForm → (gs : List Glyph) → SaysIn dialect line.now gs →
        ⊥ }
{
    let tokens = tokens_in(alloc, line, dialect)?;
    let mut found = List::from_vec(Vec::new(alloc));
    for token in tokens.as_slice() {
        let Some(item) = Item::of(token.kind, &line[token.start..token.end]) else {
            return Err(Refusal::NoForm);
        };
        found.push(item)?;
    }
    Ok(found)
}

/// Returns the meaning of the tokens of a line of the classic dialect. A line is malformed if it has
/// a bad token or a number above `MAX`.
pub fn items<'a>(alloc: Global, line: &'a [u8]) -> Result<List<Item<'a>>, Refusal>
    ensures said { IfOk result (λ is. Says line.now (glyphs_of is)) }
    ensures silent { result ≡ Err Refusal.NoForm → (gs : List Glyph) → Says line.now gs → ⊥ }
{
    items_in(alloc, line, Dialect::Classic)
}
