//! The editions of the language.
ghost use Rattle.std.specs.Prelude.{◌≡◌};
ghost use Rattle.policy_text_defs.specs.Ranges.{last_version};
ghost use Rattle.policy_text_defs.specs.Sense.{sense_of};
ghost use Rattle.policy_text_defs.specs.Editions.{chosen, edition_at, after, last_at, dialect_of, dialect_at};

use crate::statement::Statement;
use text_core::Dialect;

/// An edition: the versions of the language that have one grammar.
#[derive(Clone, Copy, PartialEq, Eq, Debug)]
pub enum Edition {
    /// Versions 1 and 2.
    Classic,
    /// Version 3.
    Third,
}

impl Edition {
    /// Returns the greatest version that a statement of the edition may name.
    pub fn last_version(self) -> u32
        ensures { result ≡ last_version self }
    {
        match self {
            Edition::Classic => 2,
            Edition::Third => 3,
        }
    }

    /// Returns how a line of the edition is split into tokens.
    fn dialect(self) -> Dialect
        ensures { result ≡ dialect_of self }
    {
        match self {
            Edition::Classic => Dialect::Classic,
            Edition::Third => Dialect::Third,
        }
    }
}

/// How the next statement of a text is read.
#[derive(Clone, Copy, PartialEq, Eq, Debug)]
pub enum Mode {
    /// As the first statement, which chooses an edition up to this one.
    Opening(Edition),
    /// In this edition.
    Within(Edition),
}

/// Returns the edition that the first statement of a text chooses.
fn chosen(statement: &Statement) -> Edition
    ensures { result ≡ chosen (sense_of statement.now) }
{
    match statement {
        Statement::Version(version) => {
            if *version <= Edition::Classic.last_version() {
                Edition::Classic
            } else {
                Edition::Third
            }
        }
        Statement::Transaction(_)
        | Statement::Keep(_, _)
        | Statement::Each(_, _)
        | Statement::Push(_, _)
        | Statement::Pop(_, _)
        | Statement::Class(_, _, _)
        | Statement::Filter(_, _, _)
        | Statement::Leaf(_, _, _, _, _)
        | Statement::Node(_, _, _, _, _) => Edition::Classic,
    }
}

impl Mode {
    /// Returns the greatest version that the statement may name.
    pub fn last_version(self) -> u32
        ensures { result ≡ last_at self }
    {
        match self {
            Mode::Opening(edition) | Mode::Within(edition) => edition.last_version(),
        }
    }

    /// Returns how the line of the statement is split into tokens.
    pub fn dialect(self) -> Dialect
        ensures { result ≡ dialect_at self }
    {
        match self {
            Mode::Opening(_) => Dialect::Classic,
            Mode::Within(edition) => edition.dialect(),
        }
    }

    /// Returns the edition in which the statement is read.
    pub fn edition_at(self, statement: &Statement) -> Edition
        ensures { result ≡ edition_at self (sense_of statement.now) }
    {
        match self {
            Mode::Opening(Edition::Classic) => Edition::Classic,
            Mode::Opening(Edition::Third) => chosen(statement),
            Mode::Within(edition) => edition,
        }
    }

    /// Returns how the statement after this one is read.
    pub fn after(self, statement: &Statement) -> Mode
        ensures { result ≡ after self (sense_of statement.now) }
    {
        Mode::Within(self.edition_at(statement))
    }
}
