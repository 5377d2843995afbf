//! The classes that statements declare.
ghost use Rattle.std.specs.Prelude.{◌≡◌, ◌≤◌, length, map, IfOk};
ghost use Rattle.policy_rules.specs.Clauses.{NoLine, IsOneTooMany};
ghost use Rattle.policy_rules.specs.Entries.{entries_of, AreRising};
ghost use Rattle.policy_rules.specs.Resolved.{classes_in, marks_of};
ghost use Rattle.policy_core.specs.Made.{made, made_of};

use crate::nodes::marks;
use crate::parts::Class;
use crate::tests::{alternatives_of, copy_alternatives};
use list_core::List;
use policy_text_defs::{Attrs, Statement, Test};
use std::alloc::{AllocError, Global};

fn class(attrs: &Attrs, conditions: List<List<Test>>, leaf: u32) -> Class
    ensures { made result ≡ record {
      marks = marks_of attrs.now;
      conditions =
          conditions;
      leaf = leaf;
    } }
{
    Class {
        marks: marks(attrs),
        conditions,
        leaf,
    }
}

/// Returns the classes in the order of their statements, each with its leaf. The error means out of
/// memory.
pub(crate) fn classes(
    alloc: Global,
    lines: &[(u32, Statement)],
    leaves: &[u32],
) -> Result<List<Class>, AllocError>
    requires len { length leaves.now ≡ length (classes_in (entries_of lines.now)) }
    ensures classes { IfOk result (λ all. map made all ≡ made_of (classes_in (entries_of lines.now))
        leaves.now) }
{
    let mut classes = List::from_vec(Vec::new(alloc));
    for (_, statement) in lines {
        match statement {
            Statement::Class(_, attrs, conditions) => {
                let leaf = leaves[classes.len()];
                let alternatives = alternatives_of(alloc, conditions.as_slice())?;
                classes.push(class(attrs, alternatives, leaf))?;
            }
            Statement::Filter(_, attrs, tests) => {
                let leaf = leaves[classes.len()];
                let alternatives = copy_alternatives(alloc, tests.as_slice())?;
                classes.push(class(attrs, alternatives, leaf))?;
            }
            _ => {}
        }
    }
    Ok(classes)
}
