//! The built-in transactions.

ghost use Rattle.std.specs.Prelude.{◌≡◌, IfOk, IfSome, map, option_map};
ghost use Rattle.rank_defs.specs.Formulas.{formula_of};
ghost use Rattle.rank_defs.specs.Programs.{program_of, assignment_of};
ghost use Rattle.rank_defs.specs.Shapes.{IsShaped};
ghost use Rattle.rank_defs.specs.Checks.{IsChecked};
ghost use Rattle.rank_defs.specs.Builtins.{builtin};
ghost use Rattle.rank_core.specs.Table.{formula, assignment, program, row, program_named};

use list_core::List;
use rank_defs::{Aim, Assign, Expr, MAX_RANK, Op, Span, Transaction, Var};
use std::alloc::{AllocError, Global};

/// An expression, in the form of the table of built-ins.
#[derive(Clone, Copy)]
enum Term {
    Number(u64),
    Var(Var),
    Two(Op, &'static Term, &'static Term),
}

/// An assignment, in the form of the table of built-ins.
struct Line {
    aim: Aim,
    value: Term,
}

/// A row of the table of built-ins: a name and a transaction.
struct Row {
    name: &'static [u8],
    keeps: &'static [Span],
    eaches: &'static [Span],
    push: &'static [Line],
    pop: &'static [Line],
}

const COUNTER: Span = Span {
    low: 0,
    high: MAX_RANK,
    first: 0,
};

/// The maximum of the node's variable and the child's or flow's variable.
const LATEST: Term = Term::Two(Op::Max, &Term::Var(Var::Keep(0)), &Term::Var(Var::Each(0)));

/// The service time of a packet: its length over its weight, in thousandths of a byte at weight 1.
const SERVICE: Term = Term::Two(
    Op::Div,
    &Term::Two(Op::Mul, &Term::Var(Var::Len), &Term::Number(1000)),
    &Term::Var(Var::Weight),
);

/// The table of built-ins: first in first out, strict priority, shortest packet first, least slack
/// time first, round robin, and start-time fair queueing.
static TABLE: [Row; 6] = [
    Row {
        name: b"fifo",
        keeps: &[],
        eaches: &[],
        push: &[],
        pop: &[],
    },
    Row {
        name: b"strict",
        keeps: &[],
        eaches: &[],
        push: &[Line {
            aim: Aim::Rank,
            value: Term::Var(Var::Prio),
        }],
        pop: &[],
    },
    Row {
        name: b"shortest",
        keeps: &[],
        eaches: &[],
        push: &[Line {
            aim: Aim::Rank,
            value: Term::Var(Var::Len),
        }],
        pop: &[],
    },
    Row {
        name: b"lstf",
        keeps: &[],
        eaches: &[],
        push: &[Line {
            aim: Aim::Rank,
            value: Term::Two(Op::Add, &Term::Var(Var::Now), &Term::Var(Var::Slack)),
        }],
        pop: &[],
    },
    Row {
        name: b"rr",
        keeps: &[COUNTER],
        eaches: &[COUNTER],
        push: &[
            Line {
                aim: Aim::Rank,
                value: LATEST,
            },
            Line {
                aim: Aim::Each(0),
                value: Term::Two(Op::Add, &Term::Var(Var::Rank), &Term::Number(1)),
            },
        ],
        pop: &[Line {
            aim: Aim::Keep(0),
            value: Term::Var(Var::Rank),
        }],
    },
    Row {
        name: b"stfq",
        keeps: &[COUNTER],
        eaches: &[COUNTER],
        push: &[
            Line {
                aim: Aim::Rank,
                value: LATEST,
            },
            Line {
                aim: Aim::Each(0),
                value: Term::Two(Op::Add, &Term::Var(Var::Rank), &SERVICE),
            },
        ],
        pop: &[Line {
            aim: Aim::Keep(0),
            value: Term::Var(Var::Rank),
        }],
    },
];

fn expression(alloc: Global, term: &Term) -> Result<Expr, AllocError>
    ensures { IfOk result (λ e. formula_of e ≡ formula term.now) }
{
    match term {
        Term::Number(n) => Ok(Expr::Number(*n)),
        Term::Var(var) => Ok(Expr::Var(*var)),
        Term::Two(op, a, b) => {
            let a = Box::new(alloc, expression(alloc, a)?)?;
            let b = Box::new(alloc, expression(alloc, b)?)?;
            Ok(Expr::Two(*op, a, b))
        }
    }
}

fn assigns(alloc: Global, lines: &[Line]) -> Result<List<Assign>, AllocError>
    ensures { IfOk result (λ done. map assignment_of done ≡ map assignment lines.now) }
{
    let mut assigns = Vec::new(alloc);
    for line in lines {
        assigns.push(Assign {
            line: 0,
            aim: line.aim,
            value: expression(alloc, &line.value)?,
        })?;
    }
    Ok(List::from_vec(assigns))
}

#[tactic(auto)]
fn transaction(alloc: Global, row: &Row) -> Result<Transaction, AllocError>
    ensures { IfOk result (λ t. program_of t ≡ program row.now) }
{
    Ok(Transaction {
        keeps: List::from_vec(Vec::from_slice(alloc, row.keeps)?),
        eaches: List::from_vec(Vec::from_slice(alloc, row.eaches)?),
        push: assigns(alloc, row.push)?,
        pop: assigns(alloc, row.pop)?,
    })
}

fn row_named<'a>(rows: &'a [Row], name: &[u8]) -> Option<&'a Row>
    ensures { option_map (λ r. program r.now) result ≡ program_named name.now (map row rows.now) }
{
    for row in rows {
        if row.name == name {
            return Some(row);
        }
    }
    None
}

/// Returns the built-in transaction with this name, if there is one. Its assignments have line
/// number 0. The error means out of memory.
pub fn builtin(alloc: Global, name: &[u8]) -> Result<Option<Transaction>, AllocError>
    ensures found { IfOk result (λ t. option_map program_of t ≡ builtin name.now) }
    ensures shaped { IfOk result (λ t. IfSome t (λ some. IsShaped (program_of some))) }
    ensures checked { IfOk result (λ t. IfSome t (λ some. IsChecked (program_of some))) }
{
    match row_named(&TABLE, name) {
        Some(row) => Ok(Some(transaction(alloc, row)?)),
        None => Ok(None),
    }
}
