//! Parses a line of a given map, in the edition of the map's policy.
ghost use Rattle.std.specs.Prelude.{◌≡◌, ◌≤◌, ◌++◌, ◌∷◌, List, [], map, option_map, IfOk};
ghost use Rattle.std.specs.Option.{option_to_list};
ghost use Rattle.text_core.specs.Glyphs.{text, glyphs_of};
ghost use Rattle.text_core.specs.Lines.{is_clean_text};
ghost use Rattle.policy_text_defs.specs.Words.{passing, is_name_in};
ghost use Rattle.mapcheck_core.specs.NumberedLines.{InNoForm};
ghost use Rattle.mapcheck_core.specs.MapLines.{MapLine, MapGives, joined, image_said, map_line, line_of_entry};

use list_core::List;
use policy_text_defs::{Edition, Mode, has_name, is, name_of};
use std::alloc::Global;
use text_core::{Item, Mark, Refusal, items_in};

/// The name of a node, its image, and the number of the line that gives it.
#[derive(Drop)]
pub(crate) struct Entry<'a> {
    pub name: &'a str,
    pub image: List<u32>,
    pub line: u32,
}

/// Parses an address: numbers joined by dots.
fn joined(alloc: Global, items: &[Item<'_>]) -> Result<List<u32>, Refusal>
    ensures ok { IfOk result (λ a. joined (glyphs_of items.now) ≡ Some a) }
    ensures none { result ≡ Err Refusal.NoForm → joined (glyphs_of items.now) ≡ None }
{
    let mut digits = List::from_vec(Vec::new(alloc));
    let mut rest = items;
    while let [Item::Number(number), behind @ ..] = rest {
        let Ok(digit) = u32::try_from(*number) else {
            return Err(Refusal::NoForm);
        };
        digits.push(digit)?;
        match behind {
            [] => return Ok(digits),
            [Item::Mark(Mark::Dot), others @ ..] => rest = others,
            _ => return Err(Refusal::NoForm),
        }
    }
    Err(Refusal::NoForm)
}

/// Parses the address that follows a name: `-` for the root, or numbers joined by dots.
fn image(alloc: Global, items: &[Item<'_>]) -> Result<List<u32>, Refusal>
    ensures ok { IfOk result (λ a. image_said (glyphs_of items.now) ≡ Some a) }
    ensures none { result ≡ Err Refusal.NoForm → image_said (glyphs_of items.now) ≡ None }
{
    match items {
        [Item::Mark(Mark::Minus)] => Ok(List::from_vec(Vec::new(alloc))),
        _ => joined(alloc, items),
    }
}

/// Returns the text of a word if it is a name of the edition.
fn name_in(edition: Edition, word: &[u8]) -> Option<&str>
    ensures { option_map (λ s. s.now) result ≡ passing (is_name_in edition) word.now }
{
    if !has_name(edition, word) {
        return None;
    }
    name_of(word)
}

/// Parses a line that begins with these two words.
fn entry_named<'a>(
    alloc: Global,
    edition: Edition,
    keyword: &[u8],
    word: &'a [u8],
    items: &[Item<'_>],
    line: u32,
) -> Result<Entry<'a>, Refusal>
    ensures ok { IfOk result (λ e. map_line edition line (text keyword.now ∷ text word.now
        ∷ glyphs_of items.now) ≡ Some (line_of_entry e ∷ [])) }
    ensures none { result ≡ Err Refusal.NoForm
        → map_line edition line (text keyword.now ∷ text word.now ∷ glyphs_of items.now) ≡ None }
{
    if !is(keyword, "map") {
        return Err(Refusal::NoForm);
    }
    let Some(name) = name_in(edition, word) else {
        return Err(Refusal::NoForm);
    };
    let image = image(alloc, items)?;
    Ok(Entry { name, image, line })
}

/// Parses a line that begins with this word.
fn entry_behind<'a>(
    alloc: Global,
    edition: Edition,
    keyword: &[u8],
    items: &[Item<'a>],
    line: u32,
) -> Result<Entry<'a>, Refusal>
    ensures ok { IfOk result (λ e. map_line edition line (text keyword.now ∷ glyphs_of items.now) ≡
        Some (line_of_entry e ∷ [])) }
    ensures none { result ≡ Err Refusal.NoForm → map_line edition line
        (text keyword.now ∷ glyphs_of items.now) ≡ None }
{
    match items {
        [Item::Word(word), rest @ ..] => entry_named(alloc, edition, keyword, word, rest, line),
        _ => Err(Refusal::NoForm),
    }
}

/// Parses a line from its items. Returns `None` if it is empty.
fn entry_of<'a>(
    alloc: Global,
    edition: Edition,
    items: &[Item<'a>],
    line: u32,
) -> Result<Option<Entry<'a>>, Refusal>
    ensures ok { IfOk result (λ e. map_line edition line (glyphs_of items.now)
        ≡ Some (option_to_list (option_map line_of_entry e))) }
    ensures none { result ≡ Err Refusal.NoForm →
        map_line edition line (glyphs_of items.now) ≡ None }
{
    match items {
        [] => Ok(None),
        [Item::Word(keyword), rest @ ..] => {
            Ok(Some(entry_behind(alloc, edition, keyword, rest, line)?))
        }
        _ => Err(Refusal::NoForm),
    }
}

/// Parses the line of this number. Returns `None` if it is empty.
pub(crate) fn read_entry<'a>(
    alloc: Global,
    edition: Edition,
    statement: &'a [u8],
    clean: bool,
    line: u32,
) -> Result<Option<Entry<'a>>, Refusal>
    requires { clean ≡ is_clean_text statement.now }
    ensures ok { IfOk result (λ e. MapGives edition line statement.now
        (option_to_list (option_map line_of_entry e))) }
    ensures none { result ≡ Err Refusal.NoForm → InNoForm (MapGives edition) line statement.now }
{
    if !clean {
        return Err(Refusal::NoForm);
    }
    let items = items_in(alloc, statement, Mode::Within(edition).dialect())?;
    entry_of(alloc, edition, items.as_slice(), line)
}
