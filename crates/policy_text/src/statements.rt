//! Reads a statement.
ghost use Rattle.std.specs.Prelude.{◌≡◌, List, Some, IfOk};
ghost use Rattle.policy_text_defs.specs.declared.keyword.Keyword.TheVariants as keyword;
ghost use Rattle.policy_text_defs.specs.Sense.{Sense, sense_of};
ghost use Rattle.policy_text_defs.specs.Settings.{only_packets};
ghost use Rattle.policy_text_defs.specs.StatementReading as forms;
ghost use Rattle.policy_text_defs.specs.Statements.{IsFormAt};
ghost use Rattle.policy_text.specs.Reads.{Reads, same};
ghost use Rattle.policy_text.specs.States.{States};
ghost use Rattle.text_core.specs.Glyphs.{glyphs_of};

use crate::alternatives::test_guard;
use crate::conditions::guard;
use crate::cursor::Cursor;
use crate::names::has_names;
use crate::parser::expression;
use crate::part::{MOST_OPEN, Part};
use crate::settings::LIMIT_LEAST;
use list_core::{List, Name};
use policy_text_defs::{Bound, Edition, Keyword, Mode, Queueing, Statement};
use rank_defs::Span;
use std::alloc::Global;
use text_core::{Item, Mark, Refusal};

const FIRST_VERSION: u64 = 1;

/// Returns the limits of a leaf whose limit in packets, if it has one, is all that is given.
fn only_packets(limit: Option<u32>) -> Queueing
    ensures { result ≡ only_packets limit }
{
    Queueing {
        packets: limit,
        bytes: None,
        per_flow: None,
        by: None,
    }
}

impl<'a> Cursor<'a> {
    /// Reads `LOW..HIGH = FIRST`.
    #[tactic(auto, unfolding(policy_text_defs::specs::StatementReading::span, policy_text_defs::specs::StatementReading::spanned))]
    fn span(&mut self) -> Result<Span, Refusal>
        ensures { Reads same forms.span result self.old.rest.now self.new.rest.now }
    {
        let low = self.number()?;
        self.mark(Mark::DotDot)?;
        let high = self.number()?;
        self.mark(Mark::Is)?;
        let first = self.number()?;
        if low > first || first > high {
            return Err(Refusal::NoForm);
        }
        Ok(Span { low, high, first })
    }

    /// Reads the number after `limit`, or returns `None` if no `limit` follows.
    #[tactic(auto, unfolding(policy_text_defs::specs::StatementReading::limit, policy_text_defs::specs::StatementReading::limit_by))]
    fn limit(&mut self) -> Result<Option<u32>, Refusal>
        ensures { Reads same forms.limit result self.old.rest.now self.new.rest.now }
    {
        if !self.takes_word("limit") {
            return Ok(None);
        }
        let limit = self.number()?;
        if limit < LIMIT_LEAST || limit > Bound::Packets.most() {
            return Err(Refusal::NoForm);
        }
        Ok(Some(limit as u32))
    }
}

/// Reads one or more names.
#[tactic(auto, unfolding(policy_text_defs::specs::StatementReading::names), using(policy_text_defs::proofs::RepeatLoops::repeats_start, policy_text_defs::proofs::RepeatLoops::repeats_over))]
fn names(alloc: Global, cursor: &mut Cursor<'_>) -> Result<List<Name>, Refusal>
    ensures { Reads same forms.names result cursor.old.rest.now cursor.new.rest.now }
{
    let mut names = List::from_vec(Vec::new(alloc));
    names.push(Name::new(alloc, cursor.name()?)?)?;
    while let Some(name) = cursor.takes_name() {
        names.push(Name::new(alloc, name)?)?;
    }
    Ok(names)
}

#[tactic(auto, unfolding(policy_text_defs::specs::StatementReading::version_by))]
fn version(cursor: &mut Cursor<'_>, mode: Mode) -> Result<Statement, Refusal>
    ensures { Reads sense_of (forms.rest_by mode (Some keyword.Policy)) result cursor.old.rest.now
        cursor.new.rest.now }
{
    let version = cursor.number()?;
    if version < FIRST_VERSION || version > u64::from(mode.last_version()) {
        return Err(Refusal::NoForm);
    }
    Ok(Statement::Version(version as u32))
}

#[tactic(auto, unfolding(policy_text_defs::specs::StatementReading::transaction_rest))]
fn transaction(alloc: Global, cursor: &mut Cursor<'_>) -> Result<Statement, Refusal>
    ensures { Reads sense_of forms.transaction_rest result cursor.old.rest.now cursor.new.rest.now }
{
    let name = cursor.name()?;
    Ok(Statement::Transaction(Name::new(alloc, name)?))
}

#[tactic(auto, unfolding(policy_text_defs::specs::StatementReading::keep_rest))]
fn keep(alloc: Global, cursor: &mut Cursor<'_>) -> Result<Statement, Refusal>
    ensures { Reads sense_of forms.keep_rest result cursor.old.rest.now cursor.new.rest.now }
{
    let name = cursor.name()?;
    let span = cursor.span()?;
    Ok(Statement::Keep(Name::new(alloc, name)?, span))
}

#[tactic(auto, unfolding(policy_text_defs::specs::StatementReading::each_rest))]
fn each(alloc: Global, cursor: &mut Cursor<'_>) -> Result<Statement, Refusal>
    ensures { Reads sense_of forms.each_rest result cursor.old.rest.now cursor.new.rest.now }
{
    let name = cursor.name()?;
    let span = cursor.span()?;
    Ok(Statement::Each(Name::new(alloc, name)?, span))
}

#[tactic(auto, unfolding(policy_text_defs::specs::StatementReading::push_rest))]
fn push(alloc: Global, cursor: &mut Cursor<'_>) -> Result<Statement, Refusal>
    ensures { Reads sense_of forms.push_rest result cursor.old.rest.now cursor.new.rest.now }
{
    let target = cursor.target()?;
    cursor.mark(Mark::Is)?;
    let Part { term, depth: _ } = expression(alloc, cursor, MOST_OPEN)?;
    Ok(Statement::Push(Name::new(alloc, target)?, term))
}

#[tactic(auto, unfolding(policy_text_defs::specs::StatementReading::pop_rest))]
fn pop(alloc: Global, cursor: &mut Cursor<'_>) -> Result<Statement, Refusal>
    ensures { Reads sense_of forms.pop_rest result cursor.old.rest.now cursor.new.rest.now }
{
    let name = cursor.name()?;
    cursor.mark(Mark::Is)?;
    let Part { term, depth: _ } = expression(alloc, cursor, MOST_OPEN)?;
    Ok(Statement::Pop(Name::new(alloc, name)?, term))
}

#[tactic(auto, unfolding(policy_text_defs::specs::StatementReading::class_rest))]
fn class(alloc: Global, cursor: &mut Cursor<'_>) -> Result<Statement, Refusal>
    ensures { Reads sense_of forms.class_rest result cursor.old.rest.now cursor.new.rest.now }
{
    let name = cursor.name()?;
    let attrs = cursor.attributes()?;
    let conditions = guard(alloc, cursor)?;
    Ok(Statement::Class(Name::new(alloc, name)?, attrs, conditions))
}

#[tactic(auto, unfolding(policy_text_defs::specs::StatementReading::filter_rest))]
fn filter(alloc: Global, cursor: &mut Cursor<'_>) -> Result<Statement, Refusal>
    ensures { Reads sense_of forms.filter_rest result cursor.old.rest.now cursor.new.rest.now }
{
    let name = cursor.name()?;
    let attrs = cursor.attributes()?;
    let alternatives = test_guard(alloc, cursor)?;
    Ok(Statement::Filter(Name::new(alloc, name)?, attrs, alternatives))
}

/// Reads a class of the edition in which the line is read.
fn class_by(alloc: Global, cursor: &mut Cursor<'_>, mode: Mode) -> Result<Statement, Refusal>
    ensures { Reads sense_of (forms.class_by mode) result cursor.old.rest.now
        cursor.new.rest.now }
{
    match mode {
        Mode::Opening(_) | Mode::Within(Edition::Classic) => class(alloc, cursor),
        Mode::Within(Edition::Third) => filter(alloc, cursor),
    }
}

#[tactic(auto, unfolding(policy_text_defs::specs::StatementReading::leaf_rest))]
fn leaf(alloc: Global, cursor: &mut Cursor<'_>) -> Result<Statement, Refusal>
    ensures { Reads sense_of forms.leaf_rest result cursor.old.rest.now cursor.new.rest.now }
{
    let name = cursor.name()?;
    cursor.literal("using")?;
    let used = cursor.name()?;
    let attrs = cursor.attributes()?;
    let limit = cursor.limit()?;
    cursor.literal("classes")?;
    let classes = names(alloc, cursor)?;
    let used = Name::new(alloc, used)?;
    let name = Name::new(alloc, name)?;
    Ok(Statement::Leaf(name, used, attrs, only_packets(limit), classes))
}

#[tactic(auto, unfolding(policy_text_defs::specs::StatementReading::leaf_settings_rest))]
fn leaf_with_settings(alloc: Global, cursor: &mut Cursor<'_>) -> Result<Statement, Refusal>
    ensures { Reads sense_of forms.leaf_settings_rest result cursor.old.rest.now
        cursor.new.rest.now }
{
    let name = cursor.name()?;
    cursor.literal("using")?;
    let used = cursor.name()?;
    let given = cursor.settings()?;
    cursor.literal("classes")?;
    let classes = names(alloc, cursor)?;
    let used = Name::new(alloc, used)?;
    let name = Name::new(alloc, name)?;
    Ok(Statement::Leaf(name, used, given.attrs, given.queueing, classes))
}

/// Reads a leaf of the edition in which the line is read.
fn leaf_by(alloc: Global, cursor: &mut Cursor<'_>, mode: Mode) -> Result<Statement, Refusal>
    ensures { Reads sense_of (forms.leaf_by mode) result cursor.old.rest.now cursor.new.rest.now }
{
    match mode {
        Mode::Opening(_) | Mode::Within(Edition::Classic) => leaf(alloc, cursor),
        Mode::Within(Edition::Third) => leaf_with_settings(alloc, cursor),
    }
}

#[tactic(auto, unfolding(policy_text_defs::specs::StatementReading::node_rest))]
fn node(alloc: Global, cursor: &mut Cursor<'_>) -> Result<Statement, Refusal>
    ensures { Reads sense_of forms.node_rest result cursor.old.rest.now cursor.new.rest.now }
{
    let name = cursor.name()?;
    cursor.literal("using")?;
    let used = cursor.name()?;
    let attrs = cursor.attributes()?;
    cursor.literal("children")?;
    let children = names(alloc, cursor)?;
    let used = Name::new(alloc, used)?;
    let name = Name::new(alloc, name)?;
    Ok(Statement::Node(name, used, attrs, only_packets(None), children))
}

#[tactic(auto, unfolding(policy_text_defs::specs::StatementReading::node_settings_rest))]
fn node_with_settings(alloc: Global, cursor: &mut Cursor<'_>) -> Result<Statement, Refusal>
    ensures { Reads sense_of forms.node_settings_rest result cursor.old.rest.now
        cursor.new.rest.now }
{
    let name = cursor.name()?;
    cursor.literal("using")?;
    let used = cursor.name()?;
    let given = cursor.settings()?;
    cursor.literal("children")?;
    let children = names(alloc, cursor)?;
    let used = Name::new(alloc, used)?;
    let name = Name::new(alloc, name)?;
    Ok(Statement::Node(name, used, given.attrs, given.queueing, children))
}

/// Reads a node of the edition in which the line is read.
fn node_by(alloc: Global, cursor: &mut Cursor<'_>, mode: Mode) -> Result<Statement, Refusal>
    ensures { Reads sense_of (forms.node_by mode) result cursor.old.rest.now cursor.new.rest.now }
{
    match mode {
        Mode::Opening(_) | Mode::Within(Edition::Classic) => node(alloc, cursor),
        Mode::Within(Edition::Third) => node_with_settings(alloc, cursor),
    }
}

/// Reads a statement whose names may be those of either edition.
#[tactic(auto, unfolding(policy_text_defs::specs::StatementReading::a_form))]
fn form(alloc: Global, cursor: &mut Cursor<'_>, mode: Mode) -> Result<Statement, Refusal>
    ensures { Reads sense_of (forms.a_form mode) result cursor.old.rest.now cursor.new.rest.now }
{
    match Keyword::of(cursor.word()?) {
        Some(Keyword::Policy) => version(cursor, mode),
        Some(Keyword::Transaction) => transaction(alloc, cursor),
        Some(Keyword::Keep) => keep(alloc, cursor),
        Some(Keyword::Each) => each(alloc, cursor),
        Some(Keyword::Push) => push(alloc, cursor),
        Some(Keyword::Pop) => pop(alloc, cursor),
        Some(Keyword::Class) => class_by(alloc, cursor, mode),
        Some(Keyword::Leaf) => leaf_by(alloc, cursor, mode),
        Some(Keyword::Node) => node_by(alloc, cursor, mode),
        None => Err(Refusal::NoForm),
    }
}

#[tactic(auto, unfolding(policy_text_defs::specs::StatementReading::a_statement, policy_text_defs::specs::StatementReading::named_at))]
fn statement(alloc: Global, cursor: &mut Cursor<'_>, mode: Mode) -> Result<Statement, Refusal>
    ensures { Reads sense_of (forms.a_statement mode) result cursor.old.rest.now
        cursor.new.rest.now }
{
    let found = form(alloc, cursor, mode)?;
    if !has_names(mode.edition_at(&found), &found) {
        return Err(Refusal::NoForm);
    }
    Ok(found)
}

/// Reads all the tokens of a line as one statement.
pub fn parse_statement(alloc: Global, items: &[Item<'_>], mode: Mode) -> Result<Statement, Refusal>
    ensures found { IfOk result (λ t. IsFormAt mode (glyphs_of items.now) (sense_of t)) }
    ensures only { (s : Sense) → IsFormAt mode (glyphs_of items.now) s → States result s }
{
    let mut cursor = Cursor { rest: items };
    let found = statement(alloc, &mut cursor, mode)?;
    if !cursor.rest.is_empty() {
        return Err(Refusal::NoForm);
    }
    Ok(found)
}
