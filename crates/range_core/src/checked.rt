//! Transactions that pass the checks.
ghost use Rattle.std.specs.Prelude.{◌≡◌, map, Err, OnOk, IfOk};
ghost use Rattle.std.specs.List.{AllByRecursion};
ghost use Rattle.rank_defs.specs.Programs.{program_of};
ghost use Rattle.rank_defs.specs.Shapes.{IsShaped};
ghost use Rattle.rank_defs.specs.Checks.{IsChecked, AreChecked, ClashesFirstAt, IsWideFirstAt, DividesByZeroFirstAt};
ghost use Rattle.rank_defs.specs.Tame.{IsAlwaysTame};
ghost use Rattle.range_core.specs.Refusals.{Refuses};

use crate::fault::RangeFault;
use crate::lines::first_fault;
use list_core::List;
use rank_defs::Transaction;
use std::alloc::AllocError;
use std::marker::Model;

/// A transaction whose types agree and whose arithmetic is safe.
#[derive(Drop)]
pub struct Checked {
    transaction: Transaction,
}

impl Model for Checked {
    ghost use Rattle.rank_defs.specs.Programs.{Program, program_of};
    ghost use Rattle.rank_defs.specs.Shapes.{IsShaped};
    ghost use Rattle.rank_defs.specs.Checks.{IsChecked};
    ghost use Rattle.range_core.specs.Codes.{program_code};

    ghost Value = { Program };

    ghost coded = { program_code };

    ghost view = { λ c. program_of c.transaction };

    ghost invariant = { λ c. IsShaped (program_of c.transaction) × IsChecked (program_of c.transaction) };
}

impl Checked {
    fn new(transaction: Transaction) -> Checked
        requires shaped { IsShaped (program_of transaction) }
        requires checked { IsChecked (program_of transaction) }
        ensures { result ≡ program_of transaction }
    {
        Checked { transaction }
    }

    pub fn transaction(&self) -> &Transaction
        ensures same { program_of result.now ≡ self.now }
        ensures shaped { IsShaped (program_of result.now) }
        ensures checked { IsChecked (program_of result.now) }
        ensures tame { IsAlwaysTame (program_of result.now) }
    {
        &self.transaction
    }
}

/// Wraps transactions that passed the checks. The error means out of memory.
fn hold(transactions: List<Transaction>) -> Result<List<Checked>, AllocError>
    requires shaped { AllByRecursion IsShaped (map program_of transactions) }
    requires checked { AreChecked (map program_of transactions) }
    ensures { IfOk result (λ checked. checked ≡ map program_of transactions) }
{
    let transactions = transactions.into_vec();
    let alloc = *transactions.allocator();
    let mut checked = List::from_vec(Vec::with_capacity(alloc, transactions.len())?);
    for transaction in transactions {
        checked.push(Checked::new(transaction))?;
    }
    Ok(checked)
}

/// Checks transactions using only the declared ranges. Each error except `NoMemory` names the least
/// line with that error. On an error the list is dropped.
pub fn check(transactions: List<Transaction>) -> Result<List<Checked>, RangeFault>
    requires shaped { AllByRecursion IsShaped (map program_of transactions) }
    ensures clash { Refuses result RangeFault.TypeClash (ClashesFirstAt
        (map program_of transactions)) }
    ensures wide { Refuses result RangeFault.Wide (IsWideFirstAt (map program_of transactions)) }
    ensures zero { Refuses result RangeFault.DivZero (DividesByZeroFirstAt
        (map program_of transactions)) }
    ensures memory { result ≡ Err RangeFault.NoMemory → AreChecked (map program_of transactions) }
    ensures checked { OnOk result (AreChecked (map program_of transactions)) }
    ensures tame { OnOk result (AllByRecursion IsAlwaysTame (map program_of transactions)) }
    ensures same { IfOk result (λ checked. checked ≡ map program_of transactions) }
{
    if let Some(fault) = first_fault(transactions.as_slice()) {
        return Err(fault);
    }
    Ok(hold(transactions)?)
}
