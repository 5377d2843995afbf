//! The interval of an expression's values.
ghost use Rattle.std.specs.Prelude.{◌≡◌, pos};
ghost use Rattle.rank_defs.specs.Formulas.{formula_of};
ghost use Rattle.rank_defs.specs.Programs.{program_of, span_at};
ghost use Rattle.rank_defs.specs.Shapes.{IsShaped};
ghost use Rattle.rank_defs.specs.Ranges.{declared as declared_of, range as range_from, range_of_span};
ghost use Rattle.range_core.specs.Bounds.{AreBoundsOf};

use crate::interval::{combined, joined, narrow, never_divides_by_zero};
use rank_defs::{Expr, MAX_PRIO, MAX_RANK, MAX_SLACK, MAX_WEIGHT, Range, Span, Transaction, Var};

/// The interval of an expression, and whether none of its divisors' intervals contains 0.
#[derive(Clone, Copy, PartialEq, Eq, Debug)]
pub struct Bounds {
    pub range: Range,
    pub divides: bool,
}

const ZERO: Range = Range { low: 0, high: 0 };

fn range(low: u64, high: u64) -> Range
    ensures { result ≡ range_from (pos low) (pos high) }
{
    Range {
        low: i128::from(low),
        high: i128::from(high),
    }
}

/// Returns the interval of the span at an index; only 0 if there is none.
fn declared_at(spans: &[Span], index: u32) -> Range
    ensures { result ≡ range_of_span (span_at spans.now index) }
{
    match spans.get(index as usize) {
        Some(span) => range(span.low, span.high),
        None => ZERO,
    }
}

/// Returns the interval of a variable.
fn declared(transaction: &Transaction, var: Var) -> Range
    ensures { result ≡ declared_of (program_of transaction.now) var }
{
    match var {
        Var::Len => range(0, u64::from(u32::MAX)),
        Var::Now | Var::Rank => range(0, MAX_RANK),
        Var::Prio => range(0, u64::from(MAX_PRIO)),
        Var::Weight => range(1, u64::from(MAX_WEIGHT)),
        Var::Slack => range(0, MAX_SLACK),
        Var::Keep(i) => declared_at(transaction.keeps.as_slice(), i),
        Var::Each(i) => declared_at(transaction.eaches.as_slice(), i),
    }
}

/// Returns the bounds of an expression, or `None` if the interval of a part is too wide.
pub fn bounds_of(transaction: &Transaction, e: &Expr) -> Option<Bounds>
    requires { IsShaped (program_of transaction.now) }
    ensures { AreBoundsOf (program_of transaction.now) (formula_of e.now) result }
{
    match e {
        Expr::Number(n) => {
            let range = narrow(i128::from(*n), i128::from(*n))?;
            Some(Bounds {
                range,
                divides: true,
            })
        }
        Expr::Var(var) => {
            let Range { low, high } = declared(transaction, *var);
            let range = narrow(low, high)?;
            Some(Bounds {
                range,
                divides: true,
            })
        }
        Expr::Two(op, a, b) => {
            let left = bounds_of(transaction, a)?;
            let right = bounds_of(transaction, b)?;
            let range = combined(*op, left.range, right.range)?;
            let divides = left.divides && right.divides && never_divides_by_zero(*op, right.range);
            Some(Bounds { range, divides })
        }
        Expr::Not(a) => {
            let part = bounds_of(transaction, a)?;
            Some(Bounds {
                range: ZERO,
                divides: part.divides,
            })
        }
        Expr::If(test, a, b) => {
            let part = bounds_of(transaction, test)?;
            let left = bounds_of(transaction, a)?;
            let right = bounds_of(transaction, b)?;
            let range = joined(left.range, right.range)?;
            let divides = part.divides && left.divides && right.divides;
            Some(Bounds { range, divides })
        }
    }
}
