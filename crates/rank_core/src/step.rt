//! Sequences of assignments.

ghost use Rattle.std.specs.Prelude.{◌≡◌, ◌≤◌};
ghost use Rattle.rank_defs.specs.Formulas.{formula_of};
ghost use Rattle.rank_defs.specs.Values.{value_of};
ghost use Rattle.rank_defs.specs.States.{variable_in};
ghost use Rattle.rank_defs.specs.Steps.{assigned, run, clamped as clamped_to};
ghost use Rattle.rank_defs.specs.Shapes.{IsEnvInRange, IsMemoryInRange, IsShaped, IsShapedAssignment};
ghost use Rattle.rank_defs.specs.Programs.{program_of, assignment_of};
ghost use Rattle.rank_defs.specs.Checks.{IsCheckedAssignment};
ghost use Rattle.rank_core.specs.Scope.{memory, run_of, AreCheckedIn, AreShapedIn};

use crate::evaluate::{Scope, clamped, narrow, number};
use list_core::List;
use rank_defs::{Aim, Assign, Env, MAX_RANK, Span, Transaction};

/// The range of a rank.
const RANKS: Span = Span {
    low: 0,
    high: MAX_RANK,
    first: 0,
};

/// Runs some assignments of a transaction in sequence, and returns the rank at the end. Each
/// assignment reads the variables as the earlier ones left them.
pub(crate) fn run(
    transaction: &Transaction,
    assigns: &List<Assign>,
    env: &Env,
    rank: u64,
    keeps: &mut [u64],
    eaches: &mut [u64],
) -> u64
    requires shaped { IsShaped (program_of transaction.now) }
    requires told { IsEnvInRange env.now }
    requires checked { AreCheckedIn transaction.now assigns.now }
    requires fits { AreShapedIn transaction.now assigns.now }
    requires range { IsMemoryInRange (program_of transaction.now)
        (memory rank keeps.old eaches.old) }
    ensures { memory result keeps.new eaches.new ≡
        run_of transaction.now env.entry.now assigns.now (memory rank keeps.old eaches.old) }
{
    let mut current = rank;
    for assign in assigns.as_slice() {
        current = perform(transaction, assign, env, current, keeps, eaches);
    }
    current
}

fn perform(
    transaction: &Transaction,
    assign: &Assign,
    env: &Env,
    rank: u64,
    keeps: &mut [u64],
    eaches: &mut [u64],
) -> u64
    requires shaped { IsShaped (program_of transaction.now) }
    requires told { IsEnvInRange env.now }
    requires checked { IsCheckedAssignment (program_of transaction.now) (assignment_of assign.now) }
    requires fits { IsShapedAssignment (program_of transaction.now) (assignment_of assign.now) }
    requires range { IsMemoryInRange (program_of transaction.now)
        (memory rank keeps.old eaches.old) }
    ensures { memory result keeps.new eaches.new ≡
        assigned (program_of transaction.now) env.entry.now (memory rank keeps.old eaches.old) (assignment_of assign.now) }
{
    match assign.aim {
        Aim::Rank => written(assign, &RANKS, transaction, env, rank, keeps, eaches),
        Aim::Keep(k) => {
            let span = &transaction.keeps.as_slice()[k as usize];
            keeps[k as usize] = written(assign, span, transaction, env, rank, keeps, eaches);
            rank
        }
        Aim::Each(k) => {
            let span = &transaction.eaches.as_slice()[k as usize];
            eaches[k as usize] = written(assign, span, transaction, env, rank, keeps, eaches);
            rank
        }
    }
}

/// Returns the value of an assignment, clamped to a range.
#[inline(always)]
fn written(
    assign: &Assign,
    span: &Span,
    transaction: &Transaction,
    env: &Env,
    rank: u64,
    keeps: &[u64],
    eaches: &[u64],
) -> u64
    requires told { IsEnvInRange env.now }
    requires checked { IsCheckedAssignment (program_of transaction.now) (assignment_of assign.now) }
    requires fits { IsShapedAssignment (program_of transaction.now) (assignment_of assign.now) }
    requires range { IsMemoryInRange (program_of transaction.now)
        (memory rank keeps.now eaches.now) }
    requires span { span.now.low ≤ span.now.high }
    ensures { result ≡ clamped_to span.now
        (value_of (variable_in env.entry.now (memory rank keeps.now eaches.now)) (formula_of assign.now.value)) }
{
    let scope = Scope {
        env,
        rank,
        keeps,
        eaches,
    };
    match narrow(&assign.value, transaction, &scope) {
        Some(value) => value.clamp(span.low, span.high),
        None => written_wide(assign, span, transaction, env, rank, keeps, eaches),
    }
}

/// Computes `written` for every form of expression.
#[inline(never)]
fn written_wide(
    assign: &Assign,
    span: &Span,
    transaction: &Transaction,
    env: &Env,
    rank: u64,
    keeps: &[u64],
    eaches: &[u64],
) -> u64
    requires told { IsEnvInRange env.now }
    requires checked { IsCheckedAssignment (program_of transaction.now) (assignment_of assign.now) }
    requires fits { IsShapedAssignment (program_of transaction.now) (assignment_of assign.now) }
    requires range { IsMemoryInRange (program_of transaction.now)
        (memory rank keeps.now eaches.now) }
    requires span { span.now.low ≤ span.now.high }
    ensures { result ≡ clamped_to span.now
        (value_of (variable_in env.entry.now (memory rank keeps.now eaches.now)) (formula_of assign.now.value)) }
{
    let scope = Scope {
        env,
        rank,
        keeps,
        eaches,
    };
    clamped(number(&assign.value, transaction, &scope), *span)
}
