//! Reads an expression.
ghost use Rattle.std.specs.Prelude.{◌≡◌};
ghost use Rattle.policy_text_defs.specs.Phrase.{phrase_of, two, negation, choice};
ghost use Rattle.policy_text_defs.specs.Reading as spec;
ghost use Rattle.policy_text_defs.specs.Words.{function_of};
ghost use Rattle.policy_text.specs.Reads.{Reads, Makes, phrase_of_part};

use crate::cursor::Cursor;
use crate::part::Part;
use list_core::Name;
use policy_text_defs::{Function, Term, operand_of};
use rank_defs::{MAX_DEPTH, Op};
use std::alloc::Global;
use text_core::{Item, Mark, Refusal};

#[tactic(auto, unfolding(policy_text_defs::specs::Reading::limited))]
fn pair(alloc: Global, op: Op, left: Part, right: Part) -> Result<Part, Refusal>
    ensures { Makes phrase_of_part (spec.limited (two op (phrase_of left.term)
        (phrase_of right.term))) result }
{
    let depth = left.depth.max(right.depth) + 1;
    if depth > MAX_DEPTH {
        return Err(Refusal::NoForm);
    }
    let term = Term::Two(
        op,
        Box::new(alloc, left.term)?,
        Box::new(alloc, right.term)?,
    );
    Ok(Part { term, depth })
}

#[tactic(auto, unfolding(policy_text_defs::specs::Reading::limited))]
fn negated(alloc: Global, part: Part) -> Result<Part, Refusal>
    ensures { Makes phrase_of_part (spec.limited (negation (phrase_of part.term))) result }
{
    let depth = part.depth + 1;
    if depth > MAX_DEPTH {
        return Err(Refusal::NoForm);
    }
    let term = Term::Not(Box::new(alloc, part.term)?);
    Ok(Part { term, depth })
}

#[tactic(auto, unfolding(policy_text_defs::specs::Reading::limited))]
fn chosen(alloc: Global, test: Part, then: Part, other: Part) -> Result<Part, Refusal>
    ensures { Makes phrase_of_part (spec.limited (choice (phrase_of test.term) (phrase_of then.term)
        (phrase_of other.term))) result }
{
    let depth = test.depth.max(then.depth.max(other.depth)) + 1;
    if depth > MAX_DEPTH {
        return Err(Refusal::NoForm);
    }
    let term = Term::If(
        Box::new(alloc, test.term)?,
        Box::new(alloc, then.term)?,
        Box::new(alloc, other.term)?,
    );
    Ok(Part { term, depth })
}

/// Reads a word that is an operand by itself.
#[tactic(auto, unfolding(policy_text_defs::specs::Reading::operand))]
fn operand(alloc: Global, word: &[u8]) -> Result<Part, Refusal>
    ensures { Makes phrase_of_part (spec.operand word.now) result }
{
    let name = match operand_of(word) {
        Some(text) => Name::new(alloc, text)?,
        None => return Err(Refusal::NoForm),
    };
    Ok(Part {
        term: Term::Word(name),
        depth: 1,
    })
}

/// Reads an expression inside one more pair of parentheses; `room` pairs may be opened.
#[tactic(auto, using(policy_text_defs::proofs::ChainLemmas::inside_more))]
#[cycle(expression)]
fn inside(alloc: Global, cursor: &mut Cursor<'_>, room: u32) -> Result<Part, Refusal>
    ensures { Reads phrase_of_part (spec.inside room) result cursor.old.rest.now
        cursor.new.rest.now }
{
    if room == 0 {
        return Err(Refusal::NoForm);
    }
    expression(alloc, cursor, room - 1)
}

/// Reads an expression up to this mark, and the mark.
#[tactic(auto, unfolding(policy_text_defs::specs::Reading::argument))]
#[cycle(expression)]
fn argument(alloc: Global, cursor: &mut Cursor<'_>, room: u32, mark: Mark) -> Result<Part, Refusal>
    ensures { Reads phrase_of_part (spec.argument (spec.inside room) mark) result
        cursor.old.rest.now cursor.new.rest.now }
{
    let part = inside(alloc, cursor, room)?;
    cursor.mark(mark)?;
    Ok(part)
}

/// Reads the two arguments of a function, and the parentheses around them.
#[tactic(auto, unfolding(policy_text_defs::specs::Reading::call))]
#[cycle(expression)]
fn call(alloc: Global, cursor: &mut Cursor<'_>, room: u32, op: Op) -> Result<Part, Refusal>
    ensures { Reads phrase_of_part (spec.call (spec.inside room) op) result cursor.old.rest.now
        cursor.new.rest.now }
{
    cursor.mark(Mark::Open)?;
    let first = argument(alloc, cursor, room, Mark::Comma)?;
    let second = argument(alloc, cursor, room, Mark::Close)?;
    pair(alloc, op, first, second)
}

/// Reads the argument of `not`.
#[tactic(auto, unfolding(policy_text_defs::specs::Reading::opposite))]
#[cycle(expression)]
fn opposite(alloc: Global, cursor: &mut Cursor<'_>, room: u32) -> Result<Part, Refusal>
    ensures { Reads phrase_of_part (spec.opposite (spec.inside room)) result cursor.old.rest.now
        cursor.new.rest.now }
{
    cursor.mark(Mark::Open)?;
    let part = argument(alloc, cursor, room, Mark::Close)?;
    negated(alloc, part)
}

/// Reads the arguments of `if`.
#[tactic(auto, unfolding(policy_text_defs::specs::Reading::alternative))]
#[cycle(expression)]
fn alternative(alloc: Global, cursor: &mut Cursor<'_>, room: u32) -> Result<Part, Refusal>
    ensures { Reads phrase_of_part (spec.alternative (spec.inside room)) result cursor.old.rest.now
        cursor.new.rest.now }
{
    cursor.mark(Mark::Open)?;
    let test = argument(alloc, cursor, room, Mark::Comma)?;
    let then = argument(alloc, cursor, room, Mark::Comma)?;
    let other = argument(alloc, cursor, room, Mark::Close)?;
    chosen(alloc, test, then, other)
}

#[cycle(expression)]
fn word_atom(
    alloc: Global,
    cursor: &mut Cursor<'_>,
    room: u32,
    word: &[u8],
) -> Result<Part, Refusal>
    ensures { Reads phrase_of_part (spec.word_at (spec.inside room) word.now (function_of word.now))
        result
        cursor.old.rest.now cursor.new.rest.now }
{
    match Function::of(word) {
        Some(Function::Two(op)) => call(alloc, cursor, room, op),
        Some(Function::Not) => opposite(alloc, cursor, room),
        Some(Function::If) => alternative(alloc, cursor, room),
        None => operand(alloc, word),
    }
}

#[tactic(auto, using(policy_text_defs::proofs::ChainLemmas::atom_next))]
#[cycle(expression)]
fn atom(alloc: Global, cursor: &mut Cursor<'_>, room: u32) -> Result<Part, Refusal>
    ensures { Reads phrase_of_part (spec.atom room) result cursor.old.rest.now cursor.new.rest.now }
{
    match cursor.next()? {
        Item::Number(number) => Ok(Part {
            term: Term::Number(number),
            depth: 1,
        }),
        Item::Word(word) => word_atom(alloc, cursor, room, word),
        Item::Mark(Mark::Open) => argument(alloc, cursor, room, Mark::Close),
        Item::Mark(_) => Err(Refusal::NoForm),
    }
}

#[tactic(auto, unfolding(policy_text_defs::specs::Reading::product), using(policy_text_defs::proofs::ChainLemmas::chain_ends))]
#[cycle(expression)]
fn product(alloc: Global, cursor: &mut Cursor<'_>, room: u32) -> Result<Part, Refusal>
    ensures { Reads phrase_of_part (spec.product (spec.atom room)) result cursor.old.rest.now
        cursor.new.rest.now }
{
    let mut left = atom(alloc, cursor, room)?;
    while let Some(op) = cursor.product_operator() {
        let right = atom(alloc, cursor, room)?;
        left = pair(alloc, op, left, right)?;
    }
    Ok(left)
}

#[tactic(auto, unfolding(policy_text_defs::specs::Reading::sum), using(policy_text_defs::proofs::ChainLemmas::chain_ends))]
#[cycle(expression)]
fn sum(alloc: Global, cursor: &mut Cursor<'_>, room: u32) -> Result<Part, Refusal>
    ensures { Reads phrase_of_part (spec.sum (spec.atom room)) result cursor.old.rest.now
        cursor.new.rest.now }
{
    let mut left = product(alloc, cursor, room)?;
    while let Some(op) = cursor.sum_operator() {
        let right = product(alloc, cursor, room)?;
        left = pair(alloc, op, left, right)?;
    }
    Ok(left)
}

/// Reads an expression in which at most `room` parentheses are open at once.
#[tactic(auto, unfolding(policy_text_defs::specs::Reading::expression))]
#[cycle(expression)]
pub fn expression(alloc: Global, cursor: &mut Cursor<'_>, room: u32) -> Result<Part, Refusal>
    ensures { Reads phrase_of_part (spec.expression (spec.atom room)) result cursor.old.rest.now
        cursor.new.rest.now }
{
    let left = sum(alloc, cursor, room)?;
    let Some(op) = cursor.relation() else {
        return Ok(left);
    };
    let right = sum(alloc, cursor, room)?;
    pair(alloc, op, left, right)
}
