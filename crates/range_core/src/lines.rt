//! The least lines at fault.
ghost use Rattle.std.specs.Prelude.{◌≡◌, ◌≢◌, List, [], ◌∷◌, ◌++◌, map, Some, None};
ghost use Rattle.std.specs.List.{AllByRecursion};
ghost use Rattle.rank_defs.specs.Programs.{Program, assignment_of, assignments, program_of};
ghost use Rattle.rank_defs.specs.Shapes.{IsShaped};
ghost use Rattle.rank_defs.specs.Checks.{AreChecked, Entry, entry, entries, Clashes, IsLeastLine, ClashesFirstAt, IsWideFirstAt, DividesByZeroFirstAt, lesser_line};
ghost use Rattle.range_core.specs.LeastLines.{AreLeast};
ghost use Rattle.range_core.specs.Refusals.{Finds};

use crate::bounds::bounds_of;
use crate::fault::RangeFault;
use crate::types::is_number;
use rank_defs::{Assign, Transaction};

/// For each kind of error, the least line with it, if there is one.
#[derive(Clone, Copy, PartialEq, Eq, Debug)]
pub struct Lines {
    clash: Option<u32>,
    wide: Option<u32>,
    zero: Option<u32>,
}

/// Returns the lesser of two lines, each of which may be absent.
fn lesser(a: Option<u32>, b: Option<u32>) -> Option<u32>
    ensures { result ≡ lesser_line a b }
{
    match (a, b) {
        (Some(m), Some(n)) => Some(m.min(n)),
        (Some(m), None) => Some(m),
        (None, b) => b,
    }
}

impl Lines {
    fn none() -> Lines
        ensures { AreLeast [] result }
    {
        Lines {
            clash: None,
            wide: None,
            zero: None,
        }
    }

    /// Returns the least lines of two lists, appended.
    fn and(self, other: Lines) -> Lines
        ensures { (xs ys : List Entry) → AreLeast xs self → AreLeast ys other →
            AreLeast (xs ++ ys) result }
    {
        Lines {
            clash: lesser(self.clash, other.clash),
            wide: lesser(self.wide, other.wide),
            zero: lesser(self.zero, other.zero),
        }
    }
}

fn clash_at(assign: &Assign) -> Option<u32>
    ensures { (p : Program) → IsLeastLine Clashes (entry p (assignment_of assign.now) ∷ []) result }
{
    if is_number(&assign.value) {
        None
    } else {
        Some(assign.line)
    }
}

/// Returns, for each kind of error, the line of the assignment if it has that error.
fn lines_of(transaction: &Transaction, assign: &Assign) -> Lines
    requires { IsShaped (program_of transaction.now) }
    ensures { AreLeast (entry (program_of transaction.now) (assignment_of assign.now) ∷ []) result }
{
    let clash = clash_at(assign);
    match bounds_of(transaction, &assign.value) {
        Some(bounds) => {
            let zero = if bounds.divides {
                None
            } else {
                Some(assign.line)
            };
            Lines {
                clash,
                wide: None,
                zero,
            }
        }
        None => Lines {
            clash,
            wide: Some(assign.line),
            zero: None,
        },
    }
}

fn lines_of_each(transaction: &Transaction, assigns: &[Assign]) -> Lines
    requires { IsShaped (program_of transaction.now) }
    ensures { AreLeast (map (entry (program_of transaction.now)) (map assignment_of assigns.now))
        result }
{
    let mut lines = Lines::none();
    for assign in assigns {
        lines = lines.and(lines_of(transaction, assign));
    }
    lines
}

fn lines_of_both(transaction: &Transaction) -> Lines
    requires { IsShaped (program_of transaction.now) }
    ensures { AreLeast (map (entry (program_of transaction.now))
        (assignments (program_of transaction.now))) result }
{
    let push = lines_of_each(transaction, transaction.push.as_slice());
    let pop = lines_of_each(transaction, transaction.pop.as_slice());
    push.and(pop)
}

fn lines_of_all(transactions: &[Transaction]) -> Lines
    requires { AllByRecursion IsShaped (map program_of transactions.now) }
    ensures { AreLeast (entries (map program_of transactions.now)) result }
{
    let mut lines = Lines::none();
    for transaction in transactions {
        lines = lines.and(lines_of_both(transaction));
    }
    lines
}

/// Returns the first error of the transactions. Type clashes come before wide intervals, and wide
/// intervals before divisors that may be 0.
pub fn first_fault(transactions: &[Transaction]) -> Option<RangeFault>
    requires { AllByRecursion IsShaped (map program_of transactions.now) }
    ensures clash { Finds result RangeFault.TypeClash (ClashesFirstAt
        (map program_of transactions.now)) }
    ensures wide { Finds result RangeFault.Wide (IsWideFirstAt (map program_of transactions.now)) }
    ensures zero { Finds result RangeFault.DivZero (DividesByZeroFirstAt
        (map program_of transactions.now)) }
    ensures checked { result ≡ None → AreChecked (map program_of transactions.now) }
    ensures memory { result ≢ Some RangeFault.NoMemory }
{
    let lines = lines_of_all(transactions);
    if let Some(line) = lines.clash {
        return Some(RangeFault::TypeClash(line));
    }
    if let Some(line) = lines.wide {
        return Some(RangeFault::Wide(line));
    }
    if let Some(line) = lines.zero {
        return Some(RangeFault::DivZero(line));
    }
    None
}
