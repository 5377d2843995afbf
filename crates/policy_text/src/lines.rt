//! Statements with their line numbers.
ghost use Rattle.std.specs.Prelude.{◌≡◌, ℕ, ◌<◌, ◌^◌, List, map, length, IfOk};
ghost use Rattle.policy_text_defs.specs.Sense.{sense_of, numbered};
ghost use Rattle.policy_text_defs.specs.Text as text;
ghost use Rattle.policy_text.specs.Entries.{entry_of, IsRising, AreWritten};

use list_core::List;
use policy_text_defs::Statement;
use std::alloc::{AllocError, Global};

/// Statements with their line numbers.
#[derive(Drop)]
pub struct Lines {
    pub(crate) held: List<(u32, Statement)>,
    ghost rising: { IsRising held },
    ghost written: { AreWritten held },
}

impl Lines {
    /// Numbers the statements from line 1.
    pub fn of(alloc: Global, statements: List<Statement>) -> Result<Lines, AllocError>
        requires written { text.AreWritten (map sense_of statements) }
        requires few { length statements < 2 ^ 32 }
        ensures { IfOk result (λ lines. map entry_of lines.held ≡
            numbered 1 (map sense_of statements)) }
    {
        let mut held = List::from_vec(Vec::new(alloc));
        let mut number = 0;
        for statement in statements.into_vec() {
            number += 1;
            held.push((number, statement))?;
        }
        Ok(Lines { held })
    }

    pub fn entries(&self) -> &[(u32, Statement)]
        ensures entries { result.now ≡ self.now.held }
        ensures rising { IsRising self.now.held }
        ensures written { AreWritten self.now.held }
    {
        self.held.as_slice()
    }
}
