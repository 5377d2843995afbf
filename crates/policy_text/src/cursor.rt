//! The remaining tokens of a line.
ghost use Rattle.std.specs.Prelude.{◌≡◌, ◌≤◌, IfOk};
ghost use Rattle.policy_text_defs.specs.Grammar as grammar;
ghost use Rattle.policy_text_defs.specs.Reading as spec;
ghost use Rattle.policy_text_defs.specs.StatementReading as forms;
ghost use Rattle.policy_text.specs.Reads.{Reads, Takes, TakesIf, same};
ghost use Rattle.text_core.specs.Glyphs.{glyph_of};

use policy_text_defs::{Attribute, is, name_of, target_of};
use rank_defs::Op;
use text_core::{Item, Mark, Refusal};

/// The remaining tokens of a line.
#[derive(Drop)]
pub struct Cursor<'a> {
    pub rest: &'a [Item<'a>],
}

fn is_mark(item: &Item<'_>, mark: Mark) -> bool
    ensures { result ≡ spec.is_sign mark (glyph_of item.now) }
{
    match item {
        Item::Mark(found) => *found == mark,
        Item::Word(_) | Item::Number(_) => false,
    }
}

fn is_word(item: &Item<'_>, word: &str) -> bool
    ensures { result ≡ spec.is_text word.now (glyph_of item.now) }
{
    match item {
        Item::Word(found) => is(found, word),
        Item::Mark(_) | Item::Number(_) => false,
    }
}

impl<'a> Cursor<'a> {
    pub fn next(&mut self) -> Result<Item<'a>, Refusal>
        ensures { Reads glyph_of spec.next result self.old.rest.now self.new.rest.now }
    {
        match self.rest {
            [] => Err(Refusal::NoForm),
            [first, rest @ ..] => {
                self.rest = rest;
                Ok(*first)
            }
        }
    }

    pub fn mark(&mut self, mark: Mark) -> Result<(), Refusal>
        ensures { Reads same (spec.mark mark) result self.old.rest.now self.new.rest.now }
    {
        if !is_mark(&self.next()?, mark) {
            return Err(Refusal::NoForm);
        }
        Ok(())
    }

    pub fn literal(&mut self, word: &str) -> Result<(), Refusal>
        ensures { Reads same (spec.literal word.now) result self.old.rest.now self.new.rest.now }
    {
        if !is_word(&self.next()?, word) {
            return Err(Refusal::NoForm);
        }
        Ok(())
    }

    /// Takes a mark if it is the next token, and returns whether it did.
    pub fn takes_mark(&mut self, mark: Mark) -> bool
        ensures { TakesIf (λ g. spec.unit_if (spec.is_sign mark g)) result self.old.rest.now
            self.new.rest.now }
    {
        match self.rest {
            [first, rest @ ..] if is_mark(first, mark) => {
                self.rest = rest;
                true
            }
            _ => false,
        }
    }

    /// Takes a word if it is the next token, and returns whether it did.
    pub fn takes_word(&mut self, word: &str) -> bool
        ensures { TakesIf (forms.word_ahead word.now) result self.old.rest.now self.new.rest.now }
    {
        match self.rest {
            [first, rest @ ..] if is_word(first, word) => {
                self.rest = rest;
                true
            }
            _ => false,
        }
    }

    pub fn word(&mut self) -> Result<&'a [u8], Refusal>
        ensures { Reads (λ w. w.now) forms.a_word result self.old.rest.now self.new.rest.now }
    {
        match self.next()? {
            Item::Word(word) => Ok(word),
            Item::Number(_) | Item::Mark(_) => Err(Refusal::NoForm),
        }
    }

    pub fn number(&mut self) -> Result<u64, Refusal>
        ensures { Reads same forms.a_number result self.old.rest.now self.new.rest.now }
    {
        match self.next()? {
            Item::Number(number) => Ok(number),
            Item::Word(_) | Item::Mark(_) => Err(Refusal::NoForm),
        }
    }

    /// Reads a number that is at most `most`.
    #[tactic(auto, unfolding(policy_text_defs::specs::StatementReading::within))]
    pub fn number_to(&mut self, most: u32) -> Result<u32, Refusal>
        ensures reads { Reads same (forms.number_to most) result self.old.rest.now
            self.new.rest.now }
        ensures low { IfOk result (λ n. n ≤ most) }
    {
        let number = self.number()?;
        if number > most as u64 {
            return Err(Refusal::NoForm);
        }
        Ok(number as u32)
    }

    #[tactic(auto, unfolding(policy_text_defs::specs::StatementReading::named_by))]
    pub fn name(&mut self) -> Result<&'a str, Refusal>
        ensures { Reads (λ n. n.now) forms.name result self.old.rest.now self.new.rest.now }
    {
        match name_of(self.word()?) {
            Some(name) => Ok(name),
            None => Err(Refusal::NoForm),
        }
    }

    /// Reads a name, or `rank`.
    #[tactic(auto, unfolding(policy_text_defs::specs::StatementReading::target_by))]
    pub fn target(&mut self) -> Result<&'a str, Refusal>
        ensures { Reads (λ n. n.now) forms.target result self.old.rest.now self.new.rest.now }
    {
        match target_of(self.word()?) {
            Some(name) => Ok(name),
            None => Err(Refusal::NoForm),
        }
    }

    /// Takes an operator that continues a product, if it is the next token.
    pub fn product_operator(&mut self) -> Option<Op>
        ensures { Takes same grammar.product_op result self.old.rest.now self.new.rest.now }
    {
        let [first, rest @ ..] = self.rest else {
            return None;
        };
        let op = product_op(first)?;
        self.rest = rest;
        Some(op)
    }

    /// Takes an operator that continues a sum, if it is the next token.
    pub fn sum_operator(&mut self) -> Option<Op>
        ensures { Takes same grammar.sum_op result self.old.rest.now self.new.rest.now }
    {
        let [first, rest @ ..] = self.rest else {
            return None;
        };
        let op = sum_op(first)?;
        self.rest = rest;
        Some(op)
    }

    /// Takes the operator of a comparison, if it is the next token.
    pub fn relation(&mut self) -> Option<Op>
        ensures { Takes same grammar.relation result self.old.rest.now self.new.rest.now }
    {
        let [first, rest @ ..] = self.rest else {
            return None;
        };
        let op = relation(first)?;
        self.rest = rest;
        Some(op)
    }

    /// Takes the word of an attribute, if it is the next token.
    pub fn attribute(&mut self) -> Option<Attribute>
        ensures { Takes same forms.attribute_at result self.old.rest.now self.new.rest.now }
    {
        let [Item::Word(word), rest @ ..] = self.rest else {
            return None;
        };
        let attribute = Attribute::of(word)?;
        self.rest = rest;
        Some(attribute)
    }

    /// Takes a name, if it is the next token.
    pub fn takes_name(&mut self) -> Option<&'a str>
        ensures { Takes (λ n. n.now) forms.name_ahead result self.old.rest.now self.new.rest.now }
    {
        let [Item::Word(word), rest @ ..] = self.rest else {
            return None;
        };
        let name = name_of(word)?;
        self.rest = rest;
        Some(name)
    }
}

fn product_op(item: &Item<'_>) -> Option<Op>
    ensures { result ≡ grammar.product_op (glyph_of item.now) }
{
    match item {
        Item::Mark(Mark::Star) => Some(Op::Mul),
        Item::Mark(Mark::Slash) => Some(Op::Div),
        _ => None,
    }
}

fn sum_op(item: &Item<'_>) -> Option<Op>
    ensures { result ≡ grammar.sum_op (glyph_of item.now) }
{
    match item {
        Item::Mark(Mark::Plus) => Some(Op::Add),
        Item::Mark(Mark::Minus) => Some(Op::Sub),
        _ => None,
    }
}

fn relation(item: &Item<'_>) -> Option<Op>
    ensures { result ≡ grammar.relation (glyph_of item.now) }
{
    match item {
        Item::Mark(Mark::Less) => Some(Op::Less),
        Item::Mark(Mark::LessEq) => Some(Op::LessEq),
        Item::Mark(Mark::Equal) => Some(Op::Equal),
        Item::Mark(Mark::NotEqual) => Some(Op::NotEqual),
        Item::Mark(Mark::MoreEq) => Some(Op::MoreEq),
        Item::Mark(Mark::More) => Some(Op::More),
        _ => None,
    }
}
