//! Reads the conditions of the third edition.
ghost use Rattle.std.specs.Prelude.{◌≡◌, List};
ghost use Rattle.text_core.specs.Glyphs.{figure};
ghost use Rattle.text_core.specs.declared.mark.Mark.TheVariants as m;
ghost use Rattle.policy_text_defs.specs.TestReading as spec;
ghost use Rattle.policy_text_defs.specs.Tests as words;
ghost use Rattle.policy_text.specs.Reads.{Reads, Makes, Takes, same};

use crate::address::ipv6_of;
use crate::cursor::Cursor;
use list_core::List;
use policy_text_defs::{
    FieldName, Flag, Prefix, Probe, Range, TcpFlags, Test, TestField, TestSubject, is, protocol_of,
};
use std::alloc::Global;
use text_core::{Item, Mark, Refusal};

/// The greatest prefix length of an IPv6 address, in bits.
const MOST_PREFIX_6: u32 = 128;

const NO_FLAGS: TcpFlags = TcpFlags {
    fin: false,
    syn: false,
    rst: false,
    psh: false,
    ack: false,
    urg: false,
    ece: false,
    cwr: false,
};

/// Returns the value of a field that a word names: a protocol.
fn value_of(field: TestField, word: &[u8]) -> Option<u32>
    ensures { result ≡ words.value_of field word.now }
{
    match field {
        TestField::Named(FieldName::Proto) => protocol_of(word),
        _ => None,
    }
}

/// Returns the range of the one value that a word names.
fn named_range(field: TestField, word: &[u8]) -> Result<Range, Refusal>
    ensures { Makes same (spec.range_of_value (words.value_of field word.now)) result }
{
    match value_of(field, word) {
        Some(number) => Ok(Range {
            low: number,
            high: number,
        }),
        None => Err(Refusal::NoForm),
    }
}

/// Adds a flag that isn't set yet; otherwise the line is malformed.
#[tactic(auto, unfolding(policy_text_defs::specs::TestReading::add_flag))]
fn add_flag(flags: TcpFlags, flag: Option<Flag>) -> Result<TcpFlags, Refusal>
    ensures { Makes same (spec.add_flag flags flag) result }
{
    match flag {
        Some(flag) => {
            if flags.has(flag) {
                return Err(Refusal::NoForm);
            }
            Ok(flags.with(flag))
        }
        None => Err(Refusal::NoForm),
    }
}

/// Returns the test of flags, if the mask has each flag of the value.
#[tactic(auto, unfolding(policy_text_defs::specs::TestReading::masked))]
fn masked(value: TcpFlags, mask: TcpFlags) -> Result<Probe, Refusal>
    ensures { Makes same (spec.masked value mask) result }
{
    if !value.is_within(mask) {
        return Err(Refusal::NoForm);
    }
    Ok(Probe::Flags(value, mask))
}

impl<'a> Cursor<'a> {
    #[tactic(auto, unfolding(policy_text_defs::specs::TestReading::bounded_range))]
    fn range_from(&mut self, field: TestField, low: u64) -> Result<Range, Refusal>
        ensures { Reads same (spec.range_by field (figure low)) result self.old.rest.now
            self.new.rest.now }
    {
        let high = self.upper(low)?;
        if low > high || high > field.most() as u64 {
            return Err(Refusal::NoForm);
        }
        Ok(Range {
            low: low as u32,
            high: high as u32,
        })
    }

    #[tactic(auto, unfolding(policy_text_defs::specs::TestReading::a_range))]
    fn values(&mut self, field: TestField) -> Result<Range, Refusal>
        ensures { Reads same (spec.a_range field) result self.old.rest.now self.new.rest.now }
    {
        match self.next()? {
            Item::Number(low) => self.range_from(field, low),
            Item::Word(word) => named_range(field, word),
            Item::Mark(_) => Err(Refusal::NoForm),
        }
    }

    /// Takes an IPv6 address if it is the next token, and returns its number.
    fn takes_ipv6(&mut self) -> Option<u128>
        ensures { Takes same spec.ipv6_ahead result self.old.rest.now self.new.rest.now }
    {
        let [Item::Word(word), rest @ ..] = self.rest else {
            return None;
        };
        let address = ipv6_of(word)?;
        self.rest = rest;
        Some(address)
    }

    /// Reads the number after `/`, or returns the greatest length if no `/` follows.
    #[tactic(auto, unfolding(policy_text_defs::specs::TestReading::prefix_length_6))]
    fn prefix_length_6(&mut self) -> Result<u32, Refusal>
        ensures { Reads same spec.prefix_length_6 result self.old.rest.now self.new.rest.now }
    {
        if self.takes_mark(Mark::Slash) {
            self.number_to(MOST_PREFIX_6)
        } else {
            Ok(MOST_PREFIX_6)
        }
    }

    fn prefix_4(&mut self) -> Result<Prefix, Refusal>
        ensures { Reads same spec.prefix_4 result self.old.rest.now self.new.rest.now }
    {
        let address = self.address()?;
        let length = self.prefix_length()?;
        Ok(Prefix::V4(address, length))
    }

    fn prefix_6(&mut self, address: u128) -> Result<Prefix, Refusal>
        ensures { Reads same (spec.prefix_6_of address) result self.old.rest.now
            self.new.rest.now }
    {
        let length = self.prefix_length_6()?;
        Ok(Prefix::V6(address, length))
    }

    #[tactic(auto, unfolding(policy_text_defs::specs::TestReading::a_prefix))]
    fn prefix(&mut self) -> Result<Prefix, Refusal>
        ensures { Reads same spec.a_prefix result self.old.rest.now self.new.rest.now }
    {
        match self.takes_ipv6() {
            Some(address) => self.prefix_6(address),
            None => self.prefix_4(),
        }
    }

    /// Reads one flag more.
    fn next_flag(&mut self, flags: TcpFlags) -> Result<TcpFlags, Refusal>
        ensures { Reads same (spec.flag_last tt flags) result self.old.rest.now
            self.new.rest.now }
    {
        let word = self.word()?;
        add_flag(flags, Flag::of(word))
    }

    /// Reads the flags after `+`.
    #[tactic(auto, using(policy_text_defs::proofs::RepeatLoops::repeats_start, policy_text_defs::proofs::RepeatLoops::repeats_over))]
    fn more_flags(&mut self, first: TcpFlags) -> Result<TcpFlags, Refusal>
        ensures { Reads same (spec.flags_after first) result self.old.rest.now self.new.rest.now }
    {
        let mut flags = first;
        while self.takes_mark(Mark::Plus) {
            flags = self.next_flag(flags)?;
        }
        Ok(flags)
    }

    /// Reads flags whose first word is read.
    #[tactic(auto, unfolding(policy_text_defs::specs::TestReading::flags_by))]
    fn flags_by(&mut self, word: &[u8]) -> Result<TcpFlags, Refusal>
        ensures { Reads same (spec.flags_by word.now) result self.old.rest.now
            self.new.rest.now }
    {
        if is(word, "none") {
            return Ok(NO_FLAGS);
        }
        let first = add_flag(NO_FLAGS, Flag::of(word))?;
        self.more_flags(first)
    }

    fn flag_set(&mut self) -> Result<TcpFlags, Refusal>
        ensures { Reads same spec.flag_set result self.old.rest.now self.new.rest.now }
    {
        let word = self.word()?;
        self.flags_by(word)
    }

    /// Reads `FLAGS / FLAGS`: the value and the mask.
    #[tactic(auto, unfolding(policy_text_defs::specs::TestReading::flags_rest))]
    fn flags(&mut self) -> Result<Probe, Refusal>
        ensures { Reads same spec.flags_rest result self.old.rest.now self.new.rest.now }
    {
        let value = self.flag_set()?;
        self.mark(Mark::Slash)?;
        let mask = self.flag_set()?;
        masked(value, mask)
    }
}

/// Reads ranges with `,` between them.
#[tactic(auto, unfolding(policy_text_defs::specs::TestReading::separated), using(policy_text_defs::proofs::RepeatLoops::repeats_start, policy_text_defs::proofs::RepeatLoops::repeats_over))]
fn ranges_in_a_row(
    alloc: Global,
    cursor: &mut Cursor<'_>,
    field: TestField,
) -> Result<List<Range>, Refusal>
    ensures { Reads same (spec.separated (spec.sign_ahead m.Comma) (spec.a_range field)) result
        cursor.old.rest.now cursor.new.rest.now }
{
    let mut ranges = List::from_vec(Vec::new(alloc));
    ranges.push(cursor.values(field)?)?;
    while cursor.takes_mark(Mark::Comma) {
        ranges.push(cursor.values(field)?)?;
    }
    Ok(ranges)
}

/// Reads the ranges after `{`, and the `}`.
fn ranges_to_brace(
    alloc: Global,
    cursor: &mut Cursor<'_>,
    field: TestField,
) -> Result<List<Range>, Refusal>
    ensures { Reads same (spec.ranges_to_brace field) result cursor.old.rest.now
        cursor.new.rest.now }
{
    let ranges = ranges_in_a_row(alloc, cursor, field)?;
    cursor.mark(Mark::CloseBrace)?;
    Ok(ranges)
}

fn single_range(
    alloc: Global,
    cursor: &mut Cursor<'_>,
    field: TestField,
) -> Result<List<Range>, Refusal>
    ensures { Reads same (spec.a_single_range field) result cursor.old.rest.now
        cursor.new.rest.now }
{
    let range = cursor.values(field)?;
    let mut ranges = List::from_vec(Vec::new(alloc));
    ranges.push(range)?;
    Ok(ranges)
}

/// Reads a range, or ranges in braces.
#[tactic(auto, unfolding(policy_text_defs::specs::TestReading::ranges))]
fn ranges(alloc: Global, cursor: &mut Cursor<'_>, field: TestField) -> Result<List<Range>, Refusal>
    ensures { Reads same (spec.ranges field) result cursor.old.rest.now cursor.new.rest.now }
{
    if cursor.takes_mark(Mark::OpenBrace) {
        ranges_to_brace(alloc, cursor, field)
    } else {
        single_range(alloc, cursor, field)
    }
}

#[tactic(auto, unfolding(policy_text_defs::specs::TestReading::a_probe))]
fn probe(alloc: Global, cursor: &mut Cursor<'_>) -> Result<Probe, Refusal>
    ensures { Reads same spec.a_probe result cursor.old.rest.now cursor.new.rest.now }
{
    match TestSubject::of(cursor.word()?) {
        Some(TestSubject::Field(field)) => {
            let ranges = ranges(alloc, cursor, field)?;
            Ok(Probe::Among(field, ranges))
        }
        Some(TestSubject::Source) => Ok(Probe::Source(cursor.prefix()?)),
        Some(TestSubject::Dest) => Ok(Probe::Dest(cursor.prefix()?)),
        Some(TestSubject::Flags) => cursor.flags(),
        Some(TestSubject::Ipv4) => Ok(Probe::Ipv4),
        Some(TestSubject::Ipv6) => Ok(Probe::Ipv6),
        None => Err(Refusal::NoForm),
    }
}

fn test_of(alloc: Global, cursor: &mut Cursor<'_>, negated: bool) -> Result<Test, Refusal>
    ensures { Reads same (spec.test_of negated) result cursor.old.rest.now cursor.new.rest.now }
{
    let probe = probe(alloc, cursor)?;
    Ok(Test { negated, probe })
}

#[tactic(auto, unfolding(policy_text_defs::specs::TestReading::a_test))]
fn test(alloc: Global, cursor: &mut Cursor<'_>) -> Result<Test, Refusal>
    ensures { Reads same spec.a_test result cursor.old.rest.now cursor.new.rest.now }
{
    if cursor.takes_word("not") {
        test_of(alloc, cursor, true)
    } else {
        test_of(alloc, cursor, false)
    }
}

/// Reads tests with `and` between them.
#[tactic(auto, unfolding(policy_text_defs::specs::TestReading::separated), using(policy_text_defs::proofs::RepeatLoops::repeats_start, policy_text_defs::proofs::RepeatLoops::repeats_over))]
fn tests(alloc: Global, cursor: &mut Cursor<'_>) -> Result<List<Test>, Refusal>
    ensures { Reads same spec.tests result cursor.old.rest.now cursor.new.rest.now }
{
    let mut tests = List::from_vec(Vec::new(alloc));
    tests.push(test(alloc, cursor)?)?;
    while cursor.takes_word("and") {
        tests.push(test(alloc, cursor)?)?;
    }
    Ok(tests)
}

/// Reads alternatives with `or` between them.
#[tactic(auto, unfolding(policy_text_defs::specs::TestReading::separated), using(policy_text_defs::proofs::RepeatLoops::repeats_start, policy_text_defs::proofs::RepeatLoops::repeats_over))]
fn test_lists(alloc: Global, cursor: &mut Cursor<'_>) -> Result<List<List<Test>>, Refusal>
    ensures { Reads same spec.test_lists result cursor.old.rest.now cursor.new.rest.now }
{
    let mut alternatives = List::from_vec(Vec::new(alloc));
    alternatives.push(tests(alloc, cursor)?)?;
    while cursor.takes_word("or") {
        alternatives.push(tests(alloc, cursor)?)?;
    }
    Ok(alternatives)
}

/// Reads the alternatives after `when`, or returns none if no `when` follows.
#[tactic(auto, unfolding(policy_text_defs::specs::TestReading::test_guard))]
pub fn test_guard(alloc: Global, cursor: &mut Cursor<'_>) -> Result<List<List<Test>>, Refusal>
    ensures { Reads same spec.test_guard result cursor.old.rest.now cursor.new.rest.now }
{
    if cursor.takes_word("when") {
        test_lists(alloc, cursor)
    } else {
        Ok(List::from_vec(Vec::new(alloc)))
    }
}
