//! Parses a target's text.
ghost use Rattle.std.specs.Prelude.{IfOk, IfErr, ◌≢◌};
ghost use Rattle.toml.specs.View.{table_view};
ghost use Rattle.embed_defs.specs.Target.{IsInRange};
ghost use Rattle.target_core.specs.TargetText.{IsToml, IsTargetText, IsRefused};
ghost use Rattle.target_core.specs.Codes.{code_of};
ghost use Rattle.target_core.specs.Faults.{IsNoToml};

use crate::fault::TargetFault;
use crate::forms::target_of;
use crate::leaves::has_few_leaves;
use crate::target::Target;
use std::alloc::Global;
use toml::Table;

/// The greatest length of a target's text, in bytes.
pub const MOST_BYTES: usize = 65_536;

/// Parses a TOML document into its table.
fn table_of(alloc: Global, bytes: &[u8]) -> Result<Table, TargetFault>
    ensures toml { IfOk result (λ table. IsToml bytes.now (table_view table)) }
    ensures refused { IfErr result (λ fault. fault ≢ TargetFault.NoMemory →
        IsNoToml fault bytes.now) }
{
    match toml::table_from_slice(alloc, bytes) {
        Ok(table) => Ok(table),
        Err(error) if error.is_memory() => Err(TargetFault::NoMemory),
        Err(_) => Err(TargetFault::NotToml),
    }
}

/// Parses a TOML document into the target that it gives. The keys are either `arity` (2 to 64) and
/// `height` (0 to 16), or `arities`, a list of at most 16 numbers from 2 to 64, from the root down.
pub fn read_target(alloc: Global, bytes: &[u8]) -> Result<Target, TargetFault>
    ensures accepted { IfOk result (λ target. IsTargetText bytes.now target.arities target.above) }
    ensures range { IfOk result (λ target. IsInRange target.arities target.above) }
    ensures refused { IfErr result (λ fault. fault ≢ TargetFault.NoMemory →
        IsRefused bytes.now (code_of fault)) }
{
    if bytes.len() > MOST_BYTES {
        return Err(TargetFault::TooLong);
    }
    let table = table_of(alloc, bytes)?;
    let target = target_of(alloc, &table)?;
    if has_few_leaves(target.arities.as_slice()) {
        Ok(target)
    } else {
        Err(TargetFault::Large)
    }
}
