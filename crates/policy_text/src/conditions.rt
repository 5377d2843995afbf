//! Reads a condition.
ghost use Rattle.policy_text_defs.specs.StatementReading as forms;
ghost use Rattle.policy_text_defs.specs.Words as words;
ghost use Rattle.policy_text.specs.Reads.{Reads, Makes, same};
ghost use Rattle.std.specs.Prelude.{List};

use crate::cursor::Cursor;
use list_core::List;
use policy_text_defs::{Condition, FieldName, Subject, protocol_of};
use std::alloc::Global;
use text_core::{Item, Mark, Refusal};

const MOST_OCTET: u32 = 255;

/// The greatest prefix length, in bits: a whole IPv4 address.
const MOST_PREFIX: u32 = 32;

/// Returns the condition that a field has the value with this name.
fn named_value(field: FieldName, word: &[u8]) -> Result<Condition, Refusal>
    ensures { Makes same (forms.named_value field word.now) result }
{
    match field {
        FieldName::Proto => protocol(word),
        _ => Err(Refusal::NoForm),
    }
}

fn protocol(word: &[u8]) -> Result<Condition, Refusal>
    ensures { Makes same (forms.protocol_by (words.protocol_of word.now)) result }
{
    match protocol_of(word) {
        Some(number) => Ok(Condition::Field(FieldName::Proto, number, number)),
        None => Err(Refusal::NoForm),
    }
}

impl<'a> Cursor<'a> {
    /// Reads the number after `..`, or returns the low one if no `..` follows.
    #[tactic(auto, unfolding(policy_text_defs::specs::StatementReading::upper))]
    pub fn upper(&mut self, low: u64) -> Result<u64, Refusal>
        ensures { Reads same (forms.upper low) result self.old.rest.now self.new.rest.now }
    {
        if self.takes_mark(Mark::DotDot) {
            self.number()
        } else {
            Ok(low)
        }
    }

    #[tactic(auto, unfolding(policy_text_defs::specs::StatementReading::bounded))]
    fn range(&mut self, field: FieldName, low: u64) -> Result<Condition, Refusal>
        ensures { Reads same (forms.range_from field low) result self.old.rest.now
            self.new.rest.now }
    {
        let high = self.upper(low)?;
        if low > high || high > field.most() as u64 {
            return Err(Refusal::NoForm);
        }
        Ok(Condition::Field(field, low as u32, high as u32))
    }

    fn bounds(&mut self, field: FieldName) -> Result<Condition, Refusal>
        ensures { Reads same (forms.bounds field) result self.old.rest.now self.new.rest.now }
    {
        match self.next()? {
            Item::Number(low) => self.range(field, low),
            Item::Word(word) => named_value(field, word),
            Item::Mark(_) => Err(Refusal::NoForm),
        }
    }

    /// Reads `N.N.N.N`.
    #[tactic(auto, unfolding(policy_text_defs::specs::StatementReading::address))]
    pub fn address(&mut self) -> Result<u32, Refusal>
        ensures { Reads same forms.address result self.old.rest.now self.new.rest.now }
    {
        let first = self.number_to(MOST_OCTET)?;
        self.mark(Mark::Dot)?;
        let second = self.number_to(MOST_OCTET)?;
        self.mark(Mark::Dot)?;
        let third = self.number_to(MOST_OCTET)?;
        self.mark(Mark::Dot)?;
        let fourth = self.number_to(MOST_OCTET)?;
        Ok(first * 16_777_216 + second * 65_536 + third * 256 + fourth)
    }

    /// Reads the number after `/`, or returns the greatest length if no `/` follows.
    #[tactic(auto, unfolding(policy_text_defs::specs::StatementReading::prefix_length))]
    pub fn prefix_length(&mut self) -> Result<u32, Refusal>
        ensures { Reads same forms.prefix_length result self.old.rest.now self.new.rest.now }
    {
        if self.takes_mark(Mark::Slash) {
            self.number_to(MOST_PREFIX)
        } else {
            Ok(MOST_PREFIX)
        }
    }

    #[tactic(auto, unfolding(policy_text_defs::specs::StatementReading::source_rest))]
    fn source(&mut self) -> Result<Condition, Refusal>
        ensures { Reads same forms.source_rest result self.old.rest.now self.new.rest.now }
    {
        let address = self.address()?;
        let length = self.prefix_length()?;
        Ok(Condition::Source(address, length))
    }

    #[tactic(auto, unfolding(policy_text_defs::specs::StatementReading::dest_rest))]
    fn dest(&mut self) -> Result<Condition, Refusal>
        ensures { Reads same forms.dest_rest result self.old.rest.now self.new.rest.now }
    {
        let address = self.address()?;
        let length = self.prefix_length()?;
        Ok(Condition::Dest(address, length))
    }

    #[tactic(auto, unfolding(policy_text_defs::specs::StatementReading::a_condition))]
    fn condition(&mut self) -> Result<Condition, Refusal>
        ensures { Reads same forms.a_condition result self.old.rest.now self.new.rest.now }
    {
        match Subject::of(self.word()?) {
            Some(Subject::Field(field)) => self.bounds(field),
            Some(Subject::Source) => self.source(),
            Some(Subject::Dest) => self.dest(),
            Some(Subject::Ipv4) => Ok(Condition::Ipv4),
            Some(Subject::Ipv6) => Ok(Condition::Ipv6),
            None => Err(Refusal::NoForm),
        }
    }
}

/// Reads conditions with `and` between them.
#[tactic(auto, unfolding(policy_text_defs::specs::StatementReading::conditions), using(policy_text_defs::proofs::RepeatLoops::repeats_start, policy_text_defs::proofs::RepeatLoops::repeats_over))]
fn conditions(alloc: Global, cursor: &mut Cursor<'_>) -> Result<List<Condition>, Refusal>
    ensures { Reads same forms.conditions result cursor.old.rest.now cursor.new.rest.now }
{
    let mut conditions = List::from_vec(Vec::new(alloc));
    conditions.push(cursor.condition()?)?;
    while cursor.takes_word("and") {
        conditions.push(cursor.condition()?)?;
    }
    Ok(conditions)
}

/// Reads the conditions after `when`, or returns none if no `when` follows.
#[tactic(auto, unfolding(policy_text_defs::specs::StatementReading::guard))]
pub fn guard(alloc: Global, cursor: &mut Cursor<'_>) -> Result<List<Condition>, Refusal>
    ensures { Reads same forms.guard result cursor.old.rest.now cursor.new.rest.now }
{
    if cursor.takes_word("when") {
        conditions(alloc, cursor)
    } else {
        Ok(List::from_vec(Vec::new(alloc)))
    }
}
