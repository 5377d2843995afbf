//! Tracks the variables of the open transaction.
ghost use Rattle.std.specs.Prelude.{IfOk};
ghost use Rattle.policy_text_defs.specs.Sense.{sense_of};
ghost use Rattle.policy_rules.specs.Kept.{AreVariablesAfter};

use crate::names::Names;
use policy_text_defs::Statement;
use std::alloc::{AllocError, Global};

/// Returns the variables of the open transaction after one more statement. A `transaction` line
/// begins with none.
pub fn variables_after<'a>(
    alloc: Global,
    mut variables: Names<'a>,
    statement: &'a Statement,
) -> Result<Names<'a>, AllocError>
    ensures { IfOk result (AreVariablesAfter variables.entry (sense_of statement.entry.now)) }
{
    match statement {
        Statement::Transaction(_) => Ok(Names::new(alloc)),
        Statement::Keep(name, _) | Statement::Each(name, _) => {
            variables.add(name.as_str())?;
            Ok(variables)
        }
        Statement::Version(_)
        | Statement::Push(..)
        | Statement::Pop(..)
        | Statement::Class(..)
        | Statement::Filter(..)
        | Statement::Leaf(..)
        | Statement::Node(..) => Ok(variables),
    }
}
