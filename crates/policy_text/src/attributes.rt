//! Reads attributes.
ghost use Rattle.std.specs.Prelude.{◌≡◌, ◌≤◌};
ghost use Rattle.policy_text_defs.specs.Ranges.{attribute_most};
ghost use Rattle.policy_text_defs.specs.StatementReading as forms;
ghost use Rattle.policy_text_defs.specs.Statements.{with_attribute};
ghost use Rattle.policy_text.specs.Reads.{Reads, Makes, same};

use crate::cursor::Cursor;
use policy_text_defs::{Attribute, Attrs};
use text_core::Refusal;

pub const UNSET: Attrs = Attrs {
    prio: None,
    weight: None,
    slack: None,
};

fn is_unset(attribute: Attribute, attrs: &Attrs) -> bool
    ensures { result ≡ forms.is_unset attribute attrs.now }
{
    match attribute {
        Attribute::Prio => attrs.prio.is_none(),
        Attribute::Weight => attrs.weight.is_none(),
        Attribute::Slack => attrs.slack.is_none(),
    }
}

/// Returns the attributes with this one set to a number in its range.
fn with(attribute: Attribute, number: u64, attrs: Attrs) -> Attrs
    requires { number ≤ attribute_most attribute }
    ensures { result ≡ with_attribute attribute number attrs }
{
    match attribute {
        Attribute::Prio => Attrs {
            prio: Some(number as u32),
            ..attrs
        },
        Attribute::Weight => Attrs {
            weight: Some(number as u32),
            ..attrs
        },
        Attribute::Slack => Attrs {
            slack: Some(number),
            ..attrs
        },
    }
}

/// Sets an attribute that isn't set yet, to a number in its range; otherwise the line is malformed.
#[tactic(auto, unfolding(policy_text_defs::specs::StatementReading::set_to))]
pub fn set(attribute: Attribute, number: u64, attrs: Attrs) -> Result<Attrs, Refusal>
    ensures { Makes same (forms.set_to attribute attrs number) result }
{
    if !is_unset(attribute, &attrs) || number < attribute.least() || number > attribute.most() {
        return Err(Refusal::NoForm);
    }
    Ok(with(attribute, number, attrs))
}

impl<'a> Cursor<'a> {
    /// Reads attributes in any order, each at most once.
    #[tactic(auto, using(policy_text_defs::proofs::RepeatLoops::repeats_start, policy_text_defs::proofs::RepeatLoops::repeats_over))]
    pub fn attributes(&mut self) -> Result<Attrs, Refusal>
        ensures { Reads same forms.attributes result self.old.rest.now self.new.rest.now }
    {
        let mut attrs = UNSET;
        while let Some(attribute) = self.attribute() {
            let number = self.number()?;
            attrs = set(attribute, number, attrs)?;
        }
        Ok(attrs)
    }
}
