//! Prints an expression.
ghost use Rattle.std.specs.Prelude.{◌≡◌, ◌++◌, OnOk, codes};
ghost use Rattle.policy_text_defs.specs.Phrase.{phrase_of};
ghost use Rattle.policy_text_defs.specs.Canonical.{term_text, is_infix, is_infix_op, op_text, wrapped};

use policy_text_defs::Term;
use rank_defs::Op;
use std::alloc::AllocError;
use text_core::put_decimal;

fn op_text(op: Op) -> &'static [u8]
    ensures { result.now ≡ op_text op }
{
    match op {
        Op::Add => b"+",
        Op::Sub => b"-",
        Op::Mul => b"*",
        Op::Div => b"/",
        Op::Less => b"<",
        Op::LessEq => b"<=",
        Op::Equal => b"==",
        Op::NotEqual => b"!=",
        Op::MoreEq => b">=",
        Op::More => b">",
        Op::Min => b"min",
        Op::Max => b"max",
        Op::And => b"and",
        Op::Or => b"or",
    }
}

fn is_infix_op(op: Op) -> bool
    ensures { result ≡ is_infix_op op }
{
    match op {
        Op::Min | Op::Max | Op::And | Op::Or => false,
        Op::Add
        | Op::Sub
        | Op::Mul
        | Op::Div
        | Op::Less
        | Op::LessEq
        | Op::Equal
        | Op::NotEqual
        | Op::MoreEq
        | Op::More => true,
    }
}

fn is_infix(term: &Term) -> bool
    ensures { result ≡ is_infix (phrase_of term.now) }
{
    match term {
        Term::Number(_) | Term::Word(_) | Term::Not(_) | Term::If(_, _, _) => false,
        Term::Two(op, _, _) => is_infix_op(*op),
    }
}

/// Appends an operand of an infix operator, in parentheses if it is an infix expression itself.
#[cycle(print)]
fn put_operand(into: &mut Vec<u8>, term: &Term) -> Result<(), AllocError>
    ensures { OnOk result (into.new.items ≡ into.old.items ++ wrapped
        (is_infix (phrase_of term.now)) (term_text (phrase_of term.now))) }
{
    if !is_infix(term) {
        return put_term(into, term);
    }
    into.extend_from_slice(b"(")?;
    put_term(into, term)?;
    into.extend_from_slice(b")")
}

/// Appends an argument of a function after its first one.
#[cycle(print)]
fn put_argument(into: &mut Vec<u8>, term: &Term) -> Result<(), AllocError>
    ensures { OnOk result (into.new.items ≡ into.old.items ++
        (codes ", " ++ term_text (phrase_of term.now))) }
{
    into.extend_from_slice(b", ")?;
    put_term(into, term)
}

/// Appends the canonical text of a term.
#[cycle(print)]
pub fn put_term(into: &mut Vec<u8>, term: &Term) -> Result<(), AllocError>
    ensures { OnOk result (into.new.items ≡ into.old.items ++ term_text (phrase_of term.now)) }
{
    match term {
        Term::Number(number) => put_decimal(into, *number as u128),
        Term::Word(word) => into.extend_from_slice(word.as_str().as_bytes()),
        Term::Not(inner) => {
            into.extend_from_slice(b"not(")?;
            put_term(into, inner)?;
            into.extend_from_slice(b")")
        }
        Term::If(test, then, other) => {
            into.extend_from_slice(b"if(")?;
            put_term(into, test)?;
            put_argument(into, then)?;
            put_argument(into, other)?;
            into.extend_from_slice(b")")
        }
        Term::Two(op, left, right) => {
            if is_infix_op(*op) {
                put_operand(into, left)?;
                into.extend_from_slice(b" ")?;
                into.extend_from_slice(op_text(*op))?;
                into.extend_from_slice(b" ")?;
                put_operand(into, right)
            } else {
                into.extend_from_slice(op_text(*op))?;
                into.extend_from_slice(b"(")?;
                put_term(into, left)?;
                put_argument(into, right)?;
                into.extend_from_slice(b")")
            }
        }
    }
}
