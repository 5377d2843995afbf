//! Tests the names of a statement against an edition.
ghost use Rattle.std.specs.Prelude.{◌≡◌};
ghost use Rattle.std.specs.List.{list_all};
ghost use Rattle.policy_text_defs.specs.EditionNames as names;
ghost use Rattle.policy_text_defs.specs.Phrase.{phrase_of};
ghost use Rattle.policy_text_defs.specs.Sense.{sense_of};
ghost use Rattle.policy_text_defs.specs.Words as words;

use list_core::Name;
use policy_text_defs::{Edition, Statement, Term, has_name};

fn has(edition: Edition, name: &Name) -> bool
    ensures { result ≡ words.has_name edition name.now }
{
    has_name(edition, name.as_str().as_bytes())
}

fn has_each(edition: Edition, names: &[Name]) -> bool
    ensures { result ≡ list_all (words.has_name edition) names.now }
{
    names.iter().all(|name| has(edition, name))
}

/// Returns whether the edition has each word of an expression.
fn has_words(edition: Edition, term: &Term) -> bool
    ensures { result ≡ names.has_words edition (phrase_of term.now) }
{
    match term {
        Term::Number(_) => true,
        Term::Word(word) => has(edition, word),
        Term::Not(part) => has_words(edition, part),
        Term::If(test, then, other) => {
            has_words(edition, test) && has_words(edition, then) && has_words(edition, other)
        }
        Term::Two(_, left, right) => has_words(edition, left) && has_words(edition, right),
    }
}

/// Returns whether the edition has each name of a statement.
pub fn has_names(edition: Edition, statement: &Statement) -> bool
    ensures { result ≡ names.has_names edition (sense_of statement.now) }
{
    match statement {
        Statement::Version(_) => true,
        Statement::Transaction(name)
        | Statement::Keep(name, _)
        | Statement::Each(name, _)
        | Statement::Class(name, _, _)
        | Statement::Filter(name, _, _) => has(edition, name),
        Statement::Push(name, term) | Statement::Pop(name, term) => {
            has(edition, name) && has_words(edition, term)
        }
        Statement::Leaf(name, used, _, _, names) | Statement::Node(name, used, _, _, names) => {
            has(edition, name) && has(edition, used) && has_each(edition, names.as_slice())
        }
    }
}
