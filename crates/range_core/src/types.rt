//! Types of expressions.
ghost use Rattle.std.specs.Prelude.{◌≡◌, ◌↔◌, IsTrue};
ghost use Rattle.rank_defs.specs.Formulas.{computes, compares, joins, group, formula_of};
ghost use Rattle.rank_defs.specs.Ranges.{counts, tells, sort_of};

use rank_defs::{Expr, Op};

/// Returns whether an operation computes a number from two numbers.
fn is_computation(op: Op) -> bool
    ensures { IsTrue result ↔ (group op ≡ computes) }
{
    matches!(
        op,
        Op::Add | Op::Sub | Op::Mul | Op::Div | Op::Min | Op::Max
    )
}

/// Returns whether an operation compares two numbers.
fn is_comparison(op: Op) -> bool
    ensures { IsTrue result ↔ (group op ≡ compares) }
{
    matches!(
        op,
        Op::Less | Op::LessEq | Op::Equal | Op::NotEqual | Op::MoreEq | Op::More
    )
}

/// Returns whether an operation joins two truth values.
fn is_connective(op: Op) -> bool
    ensures { IsTrue result ↔ (group op ≡ joins) }
{
    matches!(op, Op::And | Op::Or)
}

/// Returns whether an expression is a number and the types of its parts agree.
#[cycle(types)]
pub fn is_number(e: &Expr) -> bool
    ensures { IsTrue result ↔ (sort_of (formula_of e.now) ≡ counts) }
{
    match e {
        Expr::Number(_) => true,
        Expr::Var(_) => true,
        Expr::Two(op, a, b) => is_computation(*op) && is_number(a) && is_number(b),
        Expr::Not(_) => false,
        Expr::If(test, a, b) => is_truth(test) && is_number(a) && is_number(b),
    }
}

/// Returns whether an expression is a truth value and the types of its parts agree.
#[cycle(types)]
fn is_truth(e: &Expr) -> bool
    ensures { IsTrue result ↔ (sort_of (formula_of e.now) ≡ tells) }
{
    match e {
        Expr::Two(op, a, b) => {
            if is_comparison(*op) {
                is_number(a) && is_number(b)
            } else {
                is_connective(*op) && is_truth(a) && is_truth(b)
            }
        }
        Expr::Not(a) => is_truth(a),
        _ => false,
    }
}
