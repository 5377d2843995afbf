//! Checks the order of statements.
ghost use Rattle.std.specs.Prelude.{◌≡◌, option_map};
ghost use Rattle.policy_text_defs.specs.Sense.{sense_of};
ghost use Rattle.policy_rules.specs.Clauses.{IsFirstLine, IsMisplaced};
ghost use Rattle.policy_rules.specs.Entries.{entries_of, AreRising};
ghost use Rattle.policy_rules.specs.Kept.{is_placed_behind};

use policy_text_defs::Statement;

/// Returns whether a statement may follow the last one, or come first if there is no last one.
fn is_placed(last: Option<&Statement>, statement: &Statement) -> bool
    ensures { result ≡ is_placed_behind (option_map (λ s. sense_of s.now) last.entry)
        (sense_of statement.now) }
{
    let Some(last) = last else {
        return matches!(statement, Statement::Version(_));
    };
    match statement {
        Statement::Version(_) => false,
        Statement::Transaction(_)
        | Statement::Class(..)
        | Statement::Filter(..)
        | Statement::Leaf(..)
        | Statement::Node(..) => true,
        Statement::Keep(..) | Statement::Each(..) => matches!(
            last,
            Statement::Transaction(_) | Statement::Keep(..) | Statement::Each(..)
        ),
        Statement::Push(..) => matches!(
            last,
            Statement::Transaction(_)
                | Statement::Keep(..)
                | Statement::Each(..)
                | Statement::Push(..)
        ),
        Statement::Pop(..) => matches!(
            last,
            Statement::Transaction(_)
                | Statement::Keep(..)
                | Statement::Each(..)
                | Statement::Push(..)
                | Statement::Pop(..)
        ),
    }
}

/// Returns the line of the first statement that is out of order.
pub fn first_misplaced(lines: &[(u32, Statement)]) -> Option<u32>
    requires rising { AreRising (entries_of lines.now) }
    ensures { IsFirstLine (IsMisplaced (entries_of lines.now)) (entries_of lines.now) result }
{
    let mut last = None;
    for (line, statement) in lines {
        if !is_placed(last, statement) {
            return Some(*line);
        }
        last = Some(statement);
    }
    None
}
