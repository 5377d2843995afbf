//! The indices of transactions in the list of all, by name.
ghost use Rattle.std.specs.Prelude.{◌≡◌, map, position, is_some, IfOk};
ghost use Rattle.std.specs.Str.{bytes_eq};
ghost use Rattle.rank_defs.specs.Builtins.{builtins};
ghost use Rattle.rank_defs.specs.Programs.{program_of};
ghost use Rattle.policy_rules.specs.Clauses.{is_transaction_known};
ghost use Rattle.policy_rules.specs.Programs.{program_named};
ghost use Rattle.policy_rules.specs.Known.{WhereDeclared, program_at};

use crate::BUILTINS;
use crate::names::Names;
use list_core::List;
use rank_core::builtin;
use rank_defs::Transaction;
use std::alloc::{AllocError, Global};

/// Returns the built-in transactions. The error means out of memory.
pub fn builtin_transactions(alloc: Global) -> Result<List<Transaction>, AllocError>
    ensures { IfOk result (λ ts. map program_of ts ≡ map (λ b. b.program) builtins) }
{
    let mut transactions = List::from_vec(Vec::new(alloc));
    for name in &BUILTINS {
        if let Some(transaction) = builtin(alloc, name.as_bytes())? {
            transactions.push(transaction)?;
        }
    }
    Ok(transactions)
}

/// Returns the index of a built-in transaction.
fn builtin_place(name: &str) -> Option<usize>
    ensures { result ≡ position (bytes_eq name.now) (map (λ b. b.name) builtins) }
{
    BUILTINS.iter().position(|builtin| name == *builtin)
}

/// Returns the index of the transaction with this name in the list that `checked_transactions`
/// returns. `transactions` are the names of those that are written, in the order of their lines.
pub fn program_place(transactions: &Names<'_>, name: &str) -> Option<usize>
    ensures place { WhereDeclared transactions.now (λ es. program_at es result ≡
        program_named es name.now) }
    ensures known { WhereDeclared transactions.now (λ es. is_some result ≡
        is_transaction_known es name.now) }
{
    match builtin_place(name) {
        Some(place) => Some(place),
        None => transactions.place(name)?.checked_add(BUILTINS.len()),
    }
}
