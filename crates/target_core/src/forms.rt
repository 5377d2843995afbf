//! The two forms of a target's table.
ghost use Rattle.std.specs.Prelude.{◌≡◌, ◌≢◌, IfOk, IfErr};
ghost use Rattle.toml.specs.View.{items_view, table_view};
ghost use Rattle.target_core.specs.TargetText.{AreArities, GivesArities, first_arity, keys};
ghost use Rattle.target_core.specs.Faults.{IsKeyFault, IsArrayFault};

use crate::fault::TargetFault;
use crate::target::Target;
use crate::values::{array_at, number_at, number_in};
use list_core::List;
use std::alloc::Global;
use toml::{Table, Value};

/// The greatest height of a target, in levels.
const MOST_HEIGHT: usize = 16;

/// The least number of children of a node.
const LEAST_ARITY: u32 = 2;

/// The greatest number of children of a node.
const MOST_ARITY: u32 = 64;

/// Returns the first arity, or 2 if there is none.
fn first_arity(arities: &[u32]) -> u32
    ensures { result ≡ first_arity arities.now }
{
    match arities.first() {
        Some(first) => *first,
        None => LEAST_ARITY,
    }
}

/// Reads the numbers of an array, each from 2 to 64.
fn arities_of(alloc: Global, items: &[Value]) -> Result<List<u32>, TargetFault>
    ensures ok { IfOk result (AreArities (items_view items.now)) }
    ensures refused { IfErr result (λ fault. fault ≢ TargetFault.NoMemory →
        IsArrayFault fault (items_view items.now)) }
{
    let mut arities = Vec::new(alloc);
    for item in items {
        match number_in(item, LEAST_ARITY, MOST_ARITY) {
            Some(arity) => arities.push(arity)?,
            None => return Err(TargetFault::Key),
        }
    }
    Ok(List::from_vec(arities))
}

/// Reads the target of a table with the key `arities` alone: an array of at most 16 numbers from 2
/// to 64.
fn each_arity(alloc: Global, table: &Table) -> Result<Target, TargetFault>
    requires { keys (table_view table.now) ≡ 1 }
    ensures accepted { IfOk result (λ target. GivesArities (table_view table.now) target.arities
        target.above) }
    ensures refused { IfErr result (λ fault. fault ≢ TargetFault.NoMemory →
        IsKeyFault fault (table_view table.now)) }
{
    let items = array_at(table, "arities").ok_or(TargetFault::Key)?;
    if items.len() > MOST_HEIGHT {
        return Err(TargetFault::Key);
    }
    let arities = arities_of(alloc, items)?;
    let above = first_arity(arities.as_slice());
    Ok(Target { arities, above })
}

/// Reads the target of a table with exactly the keys `arity`, from 2 to 64, and `height`, from 0 to
/// 16.
fn one_arity(alloc: Global, table: &Table) -> Result<Target, TargetFault>
    requires { keys (table_view table.now) ≡ 2 }
    ensures accepted { IfOk result (λ target. GivesArities (table_view table.now) target.arities
        target.above) }
    ensures refused { IfErr result (λ fault. fault ≢ TargetFault.NoMemory →
        IsKeyFault fault (table_view table.now)) }
{
    let arity = number_at(table, "arity", LEAST_ARITY, MOST_ARITY).ok_or(TargetFault::Key)?;
    let height = number_at(table, "height", 0, MOST_HEIGHT as u32).ok_or(TargetFault::Key)?;
    let arities = vec![in alloc; arity; height as usize]?;
    Ok(Target {
        arities: List::from_vec(arities),
        above: arity,
    })
}

/// Reads the target that a table gives in one of the two forms.
pub fn target_of(alloc: Global, table: &Table) -> Result<Target, TargetFault>
    ensures accepted { IfOk result (λ target. GivesArities (table_view table.now) target.arities
        target.above) }
    ensures refused { IfErr result (λ fault. fault ≢ TargetFault.NoMemory →
        IsKeyFault fault (table_view table.now)) }
{
    match table.len() {
        1 => each_arity(alloc, table),
        2 => one_arity(alloc, table),
        _ => Err(TargetFault::Key),
    }
}
