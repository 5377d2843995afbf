//! Parses a given map: first its lines in order, then for each node the line that names it.
ghost use Rattle.std.specs.Prelude.{◌≡◌, ◌↔◌, ◌⊎◌, ◌<◌, ◌≤◌, ℕ, true, false, List, [], length, map, option_map, IfOk, IfErr, MatchOption};
ghost use Rattle.std.specs.Option.{option_to_list};
ghost use Rattle.mapcheck_core.specs.Known.{knows};
ghost use Rattle.text_core.specs.Lines.{is_clean_text, statements_of};
ghost use Rattle.tree_defs.specs.Tree.{most_nodes};
ghost use Rattle.mapcheck_core.specs.declared.given.Given.{Given as Map};
ghost use Rattle.mapcheck_core.specs.declared.fault.MapFault.{MapFault as Fault};
ghost use Rattle.mapcheck_core.specs.declared.fault.MapFault.TheVariants.{TooLong, Line, NoMemory};
ghost use Rattle.mapcheck_core.specs.NumberedLines.{InNoForm, IsFirstAtFault};
ghost use Rattle.mapcheck_core.specs.MapLines.{MapLine, MapGives, line_of_entry};
ghost use Rattle.mapcheck_core.specs.MapTexts.{most_map_bytes, has, named, unknown_line, repeated_line, missing_node, line_for, map_given, answer_of, AreMapLines, IsInNoForm, IsMapAnswer, Fits, ForMapAnswer};

use crate::entry::{Entry, read_entry};
use crate::fault::MapFault;
use crate::given::Given;
use list_core::{List, Name};
use policy_text_defs::Edition;
use std::alloc::{AllocError, Global};
use std::collections::BTreeSet;
use text_core::{Refusal, lines};

/// The greatest length of a map's text, in bytes.
pub const MOST_MAP_BYTES: usize = 1_048_576;

/// Parses the line of this number. Returns `None` if it is empty.
fn next_entry<'a>(
    alloc: Global,
    edition: Edition,
    statement: &'a [u8],
    clean: bool,
    number: u32,
) -> Result<Option<Entry<'a>>, MapFault>
    requires { clean ≡ is_clean_text statement.now }
    ensures ok { IfOk result (λ e. MapGives edition number statement.now
        (option_to_list (option_map line_of_entry e))) }
    ensures fault { IfErr result (λ f. (f ≡ NoMemory) ⊎ ((f ≡ Line number) ×
        InNoForm (MapGives edition) number statement.now)) }
{
    match read_entry(alloc, edition, statement, clean, number) {
        Ok(entry) => Ok(entry),
        Err(Refusal::NoForm) => Err(MapFault::Line(number)),
        Err(Refusal::NoMemory) => Err(MapFault::NoMemory),
    }
}

/// Parses the lines of a text that isn't too long.
fn read_entries<'a>(
    alloc: Global,
    edition: Edition,
    text: &'a [u8],
) -> Result<List<Entry<'a>>, MapFault>
    requires { length text.now ≤ most_map_bytes }
    ensures ok { IfOk result (λ es. AreMapLines edition text.now (map line_of_entry es)) }
    ensures fault { IfErr result (λ f. (f ≡ NoMemory)
        ⊎ ((n : ℕ) × (f ≡ Line n) ×
        IsFirstAtFault (MapGives edition) (IsInNoForm edition) (statements_of text.now) n)) }
{
    let lines = lines(alloc, text)?;
    let mut entries = List::from_vec(Vec::new(alloc));
    let mut number = 0;
    for line in lines.as_slice() {
        number += 1;
        let statement = &text[line.start..line.end];
        if let Some(entry) = next_entry(alloc, edition, statement, line.clean, number)? {
            entries.push(entry)?;
        }
    }
    Ok(entries)
}

/// Puts the names in order, so that a line's name is found without comparing it with each of them.
fn ordered<'a>(alloc: Global, names: &'a [Name]) -> Result<BTreeSet<&'a str>, AllocError>
    ensures { IfOk result (λ known. (name : List ℕ) → knows known name ≡ has names.now name) }
{
    let mut known = BTreeSet::new(alloc);
    for name in names {
        known.insert(name.as_str())?;
    }
    Ok(known)
}

/// Returns the first line that gives a name.
fn entry_for<'a, 'b>(entries: &'a [Entry<'b>], name: &str) -> Option<&'a Entry<'b>>
    ensures { MatchOption result (has (named (map line_of_entry entries.now)) name.now ≡ false)
        (λ e. (has (named (map line_of_entry entries.now)) name.now ≡ true)
        × (line_for (map line_of_entry entries.now) name.now ≡ line_of_entry e.now)) }
{
    for entry in entries {
        if name == entry.name {
            return Some(entry);
        }
    }
    None
}

/// Says whether one of the lines gives a name.
fn is_named(entries: &[Entry<'_>], name: &str) -> bool
    ensures { result ≡ has (named (map line_of_entry entries.now)) name.now }
{
    entry_for(entries, name).is_some()
}

/// Returns the least line number whose name isn't known.
fn first_unknown(entries: &[Entry<'_>], known: &BTreeSet<&str>) -> Option<u32>
    ensures { (names : List (List ℕ)) → ((name : List ℕ) → knows known.now name ≡ has names name)
        → result ≡ unknown_line names (map line_of_entry entries.now) }
{
    for entry in entries {
        if !known.contains(entry.name) {
            return Some(entry.line);
        }
    }
    None
}

/// Returns the least line number whose name isn't among the names. Names are put in order first,
/// since a map may have 100,000 lines. The error means out of memory.
fn unknown_line(
    alloc: Global,
    entries: &[Entry<'_>],
    names: &[Name],
) -> Result<Option<u32>, AllocError>
    ensures { IfOk result (λ line. line ≡ unknown_line names.now (map line_of_entry entries.now)) }
{
    let known = ordered(alloc, names)?;
    Ok(first_unknown(entries, &known))
}

/// Returns the least line number whose name is also on an earlier line.
fn repeated_line(entries: &[Entry<'_>]) -> Option<u32>
    ensures { result ≡ repeated_line [] (map line_of_entry entries.now) }
{
    for (place, entry) in entries.iter().enumerate() {
        if is_named(&entries[..place], entry.name) {
            return Some(entry.line);
        }
    }
    None
}

/// Returns the least number of a node that no line names.
fn missing_node(entries: &[Entry<'_>], names: &[Name]) -> Option<usize>
    ensures { result ≡ missing_node names.now (map line_of_entry entries.now) }
{
    names
        .iter()
        .position(|name| !is_named(entries, name.as_str()))
}

/// Returns the images and line numbers of the nodes, each of which is named.
fn images_of(alloc: Global, entries: &[Entry<'_>], names: &[Name]) -> Result<Given, AllocError>
    requires { missing_node names.now (map line_of_entry entries.now) ≡ None }
    ensures { IfOk result (λ g. g ≡ map_given names.now (map line_of_entry entries.now)) }
{
    let mut images = List::from_vec(Vec::new(alloc));
    let mut lines = List::from_vec(Vec::new(alloc));
    for name in names {
        let Some(entry) = entry_for(entries, name.as_str()) else {
            unreachable!()
        };
        images.push(List::from_vec(entry.image.as_slice().to_vec(alloc)?))?;
        lines.push(entry.line)?;
    }
    Ok(Given { images, lines })
}

/// Makes the map from its lines, which have all been parsed.
fn map_of(alloc: Global, entries: &[Entry<'_>], names: &[Name]) -> Result<Given, MapFault>
    requires few { length names.now ≤ most_nodes }
    ensures { (result ≡ answer_of names.now (map line_of_entry entries.now)) ⊎ (result ≡
        Err NoMemory) }
{
    if let Some(line) = unknown_line(alloc, entries, names)? {
        return Err(MapFault::Unknown(line));
    }
    if let Some(line) = repeated_line(entries) {
        return Err(MapFault::Twice(line));
    }
    if let Some(number) = missing_node(entries, names) {
        return Err(MapFault::Missing(number as u32));
    }
    Ok(images_of(alloc, entries, names)?)
}

/// Parses a map of the nodes with these names, which are in preorder those of a policy of this
/// edition. Errors are checked in this order: the text is too long; a line is malformed; a name
/// isn't a node's; a name is also on an earlier line; no line names a node. An error about a line or
/// a node holds the least such number.
pub fn read_map(
    alloc: Global,
    edition: Edition,
    text: &[u8],
    names: &List<Name>,
) -> Result<Given, MapFault>
    requires few { length names.now ≤ most_nodes }
    ensures answer { (result ≡ Err NoMemory) ⊎ IsMapAnswer edition text.now names.now result }
    ensures only { ForMapAnswer edition text.now names.now (λ answer.
        (result ≡ answer) ⊎ (result ≡ Err NoMemory)) }
    ensures too_long { (result ≡ Err TooLong) ↔ (most_map_bytes < length text.now) }
    ensures given { IfOk result (λ g. Fits names.now g) }
{
    if text.len() > MOST_MAP_BYTES {
        return Err(MapFault::TooLong);
    }
    let entries = read_entries(alloc, edition, text)?;
    map_of(alloc, entries.as_slice(), names.as_slice())
}
