//! Prefixes with host bits set.
use crate::conditions::host_mask;
use crate::notes::Notes;
use list_core::List;
use policy_text_defs::{Condition, Prefix, Probe, Statement, Test};
use std::alloc::{AllocError, Global};

/// Returns the text of an IPv4 prefix. Fails if out of memory.
fn prefix_text(alloc: Global, address: u32, bits: u32) -> Result<String, AllocError> {
    let [a, b, c, d] = address.to_be_bytes();
    format!(in alloc; "{a}.{b}.{c}.{d}/{bits}")
}

/// Adds a warning if an address has bits after its prefix. Fails if out of memory.
fn warn_of_prefix(
    alloc: Global,
    notes: &mut Notes<'_>,
    line: u32,
    address: u32,
    bits: u32,
) -> Result<(), AllocError> {
    let mask = host_mask(bits);
    if address & mask == 0 {
        return Ok(());
    }
    let written = prefix_text(alloc, address, bits)?;
    let meant = prefix_text(alloc, address & !mask, bits)?;
    let what = format!(in alloc;
        "{written} has host bits set, which are ignored: it means {meant}"
    )?;
    notes.add_at(line, &what)
}

/// Adds a warning for each prefix of a class with host bits set. Fails if out of memory.
fn warn_of_conditions(
    alloc: Global,
    notes: &mut Notes<'_>,
    line: u32,
    conditions: &[Condition],
) -> Result<(), AllocError> {
    for condition in conditions {
        if let Condition::Source(address, bits) | Condition::Dest(address, bits) = condition {
            warn_of_prefix(alloc, notes, line, *address, *bits)?;
        }
    }
    Ok(())
}

/// Adds a warning for each IPv4 prefix of tests with host bits set. Fails if out of memory.
fn warn_of_tests(
    alloc: Global,
    notes: &mut Notes<'_>,
    line: u32,
    tests: &[Test],
) -> Result<(), AllocError> {
    for test in tests {
        match &test.probe {
            Probe::Source(Prefix::V4(address, bits)) | Probe::Dest(Prefix::V4(address, bits)) => {
                warn_of_prefix(alloc, notes, line, *address, *bits)?;
            }
            _ => {}
        }
    }
    Ok(())
}

/// Adds a warning for each IPv4 prefix of a class with host bits set. Fails if out of memory.
fn warn_of_alternatives(
    alloc: Global,
    notes: &mut Notes<'_>,
    line: u32,
    alternatives: &[List<Test>],
) -> Result<(), AllocError> {
    for tests in alternatives {
        warn_of_tests(alloc, notes, line, tests.as_slice())?;
    }
    Ok(())
}

/// Adds a warning for each IPv4 prefix with host bits set. Fails if out of memory.
pub fn warn_of_prefixes(
    alloc: Global,
    notes: &mut Notes<'_>,
    entries: &[(u32, Statement)],
) -> Result<(), AllocError> {
    for entry in entries {
        match entry {
            (line, Statement::Class(_, _, conditions)) => {
                warn_of_conditions(alloc, notes, *line, conditions.as_slice())?;
            }
            (line, Statement::Filter(_, _, alternatives)) => {
                warn_of_alternatives(alloc, notes, *line, alternatives.as_slice())?;
            }
            _ => {}
        }
    }
    Ok(())
}
