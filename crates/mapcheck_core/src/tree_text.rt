//! Parses a given tree: the only line of a text that has a tree.
ghost use Rattle.std.specs.Prelude.{◌≡◌, ◌≢◌, ◌↔◌, ◌⊎◌, ◌<◌, ◌≤◌, ℕ, [], length, IfOk, IfErr, MatchResult};
ghost use Rattle.std.specs.Bool.{Decides, MatchBool};
ghost use Rattle.text_core.specs.Glyphs.{sign, glyph_of, glyphs_of};
ghost use Rattle.text_core.specs.Lines.{is_clean_text};
ghost use Rattle.tree_defs.specs.Topology.{Topology};
ghost use Rattle.tree_core.specs.Shape.{topology};
ghost use Rattle.mapcheck_core.specs.declared.tree_fault.TreeFault.TheVariants.{TooLong, Line, NoMemory};
ghost use Rattle.mapcheck_core.specs.GivenMaps.{IsWithinLimits};
ghost use Rattle.mapcheck_core.specs.NumberedLines.{InNoForm};
ghost use Rattle.mapcheck_core.specs.TreeReading.{read_on};
ghost use Rattle.mapcheck_core.specs.TreeTexts.{most_tree_bytes, TreeGives, IsTreeText, IsTreeFault, ForTree, ForTreeFault, IsRead, AreReadLines};

use crate::nest::measured;
use crate::tree_fault::TreeFault;
use std::alloc::{AllocError, Global};
use text_core::{Item, Mark, Refusal, items, lines};
use tree_core::Topo;

/// The greatest length of a tree's text, in bytes.
pub const MOST_TREE_BYTES: usize = 65_536;

/// The greatest number of nodes of a tree.
const MOST_NODES: usize = 1_024;

/// The greatest number of levels below the root of a tree.
const MOST_LEVELS: usize = 64;

/// The contents of a line.
#[derive(Drop)]
pub(crate) enum Found {
    Nothing,
    Tree(Topo),
    /// A tree with too many nodes or levels.
    Large,
}

impl Found {
    fn is_tree(&self) -> bool
        ensures { MatchBool result (self.now ≢ Found.Nothing) (self.now ≡ Found.Nothing) }
    {
        match self {
            Found::Nothing => false,
            Found::Tree(_) | Found::Large => true,
        }
    }
}

/// Says whether a node begins.
fn opens(item: &Item<'_>) -> bool
    ensures { Decides result (glyph_of item.now ≡ sign Mark.Open) }
{
    matches!(item, Item::Mark(Mark::Open))
}

/// Says whether a node ends.
fn closes(item: &Item<'_>) -> bool
    ensures { Decides result (glyph_of item.now ≡ sign Mark.Close) }
{
    matches!(item, Item::Mark(Mark::Close))
}

/// Makes the tree from its items, which write one.
fn tree_of(alloc: Global, items: &[Item<'_>]) -> Result<Topo, AllocError>
    requires { (t : Topology) × (read_on (glyphs_of items.now) [] [] ≡ Some t) }
    ensures { IfOk result (λ t. read_on (glyphs_of items.now) [] [] ≡ Some (topology t)) }
{
    let mut around = Vec::new(alloc);
    let mut trees = Vec::new(alloc);
    for item in items {
        if opens(item) {
            around.push(trees)?;
            trees = Vec::new(alloc);
        } else if closes(item) {
            let Some(outer) = around.pop() else {
                unreachable!()
            };
            let node = Topo::inner(trees);
            trees = outer;
            trees.push(node)?;
        } else {
            trees.push(Topo::leaf())?;
        }
    }
    let Some(tree) = trees.pop() else {
        unreachable!()
    };
    Ok(tree)
}

/// Parses a line. The error means that it is malformed, or out of memory.
fn read_line(alloc: Global, statement: &[u8], clean: bool) -> Result<Found, Refusal>
    requires { clean ≡ is_clean_text statement.now }
    ensures ok { IfOk result (IsRead statement.now) }
    ensures none { result ≡ Err Refusal.NoForm → (n : ℕ) → InNoForm TreeGives n statement.now }
{
    if !clean {
        return Err(Refusal::NoForm);
    }
    let items = items(alloc, statement)?;
    if items.is_empty() {
        return Ok(Found::Nothing);
    }
    let Some(size) = measured(items.as_slice()) else {
        return Err(Refusal::NoForm);
    };
    if size.nodes > MOST_NODES || size.levels > MOST_LEVELS {
        return Ok(Found::Large);
    }
    Ok(Found::Tree(tree_of(alloc, items.as_slice())?))
}

/// Parses the line of this number. The error means that it is malformed, or out of memory.
fn next_found(alloc: Global, statement: &[u8], clean: bool, number: u32) -> Result<Found, TreeFault>
    requires { clean ≡ is_clean_text statement.now }
    ensures ok { IfOk result (IsRead statement.now) }
    ensures fault { IfErr result (λ f. (f ≡ NoMemory)
        ⊎ ((f ≡ Line number) × ((n : ℕ) → InNoForm TreeGives n statement.now))) }
{
    match read_line(alloc, statement, clean) {
        Ok(found) => Ok(found),
        Err(Refusal::NoForm) => Err(TreeFault::Line(number)),
        Err(Refusal::NoMemory) => Err(TreeFault::NoMemory),
    }
}

/// Parses all lines. Returns the contents of the only line with a tree and its number, or 0 if
/// there is none.
fn read_lines(alloc: Global, text: &[u8]) -> Result<(Found, u32), TreeFault>
    requires { length text.now ≤ most_tree_bytes }
    ensures ok { IfOk result (λ r. AreReadLines text.now r.0 r.1) }
    ensures fault { IfErr result (λ f. (f ≡ NoMemory) ⊎ IsTreeFault text.now f) }
{
    let lines = lines(alloc, text)?;
    let mut found = Found::Nothing;
    let mut place = 0;
    let mut number = 0;
    for line in lines.as_slice() {
        number += 1;
        let statement = &text[line.start..line.end];
        let next = next_found(alloc, statement, line.clean, number)?;
        if next.is_tree() {
            if place > 0 {
                return Err(TreeFault::Line(number));
            }
            found = next;
            place = number;
        }
    }
    Ok((found, place))
}

/// Parses a tree's text. Errors are checked in this order: the text is too long; a line is
/// malformed or has a second tree (the least such line), or no line has a tree; the tree has more
/// than 1,024 nodes or 64 levels.
pub fn read_tree(alloc: Global, text: &[u8]) -> Result<Topo, TreeFault>
    ensures tree { IfOk result (λ t. IsTreeText text.now (topology t)) }
    ensures limits { IfOk result (λ t. IsWithinLimits (topology t)) }
    ensures fault { IfErr result (λ f. (f ≡ NoMemory) ⊎ IsTreeFault text.now f) }
    ensures accepted { ForTree text.now (λ t. MatchResult result (λ r. topology r ≡ t) (λ f. f ≡
        NoMemory)) }
    ensures refused { ForTreeFault text.now (λ fault. MatchResult result (λ _. ⊥) (λ f.
        (f ≡ fault) ⊎ (f ≡ NoMemory))) }
    ensures too_long { (result ≡ Err TooLong) ↔ (most_tree_bytes < length text.now) }
{
    if text.len() > MOST_TREE_BYTES {
        return Err(TreeFault::TooLong);
    }
    let (found, line) = read_lines(alloc, text)?;
    match found {
        Found::Nothing => Err(TreeFault::Line(0)),
        Found::Large => Err(TreeFault::Large(line)),
        Found::Tree(tree) => Ok(tree),
    }
}
