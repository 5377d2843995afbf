//! All transactions, checked.
ghost use Rattle.std.specs.Prelude.{◌≡◌, All, IfOk, IfErr, OnOk};
ghost use Rattle.policy_text_defs.specs.Valid.{IsValid};
ghost use Rattle.policy_rules.specs.Accepted.{AreFew, AreComputable, IsFault};
ghost use Rattle.policy_rules.specs.Entries.{entries_of, AreRising};
ghost use Rattle.policy_rules.specs.Known.{known_programs, fault_of};

use crate::PolicyFault;
use crate::bodies::add_written;
use crate::places::builtin_transactions;
use list_core::List;
use policy_text_defs::Statement;
use range_core::{Checked, RangeFault, check};
use std::alloc::Global;

fn fault(fault: RangeFault) -> PolicyFault
    ensures { result ≡ fault_of fault }
{
    match fault {
        RangeFault::TypeClash(line) => PolicyFault::TypeClash(line),
        RangeFault::Wide(line) => PolicyFault::Wide(line),
        RangeFault::DivZero(line) => PolicyFault::DivZero(line),
        RangeFault::NoMemory => PolicyFault::NoMemory,
    }
}

/// Returns the built-in transactions and then those that are written, in the order of their lines.
/// Rejects types that don't agree, then intervals that are too wide, then divisors that may be 0,
/// each at its lowest line. `NoMemory` means out of memory.
pub fn checked_transactions(
    alloc: Global,
    lines: &[(u32, Statement)],
) -> Result<List<Checked>, PolicyFault>
    requires rising { AreRising (entries_of lines.now) }
    requires few { AreFew (entries_of lines.now) }
    requires valid { All (λ e. IsValid e.1) (entries_of lines.now) }
    ensures ok { OnOk result (AreComputable (entries_of lines.now)) }
    ensures programs { IfOk result (λ checked. checked ≡ known_programs (entries_of lines.now)) }
    ensures fault { IfErr result (IsFault (entries_of lines.now)) }
{
    let mut transactions = builtin_transactions(alloc)?;
    add_written(alloc, &mut transactions, lines)?;
    check(transactions).map_err(fault)
}
