//! Reads the settings of a leaf or node.
ghost use Rattle.std.specs.Prelude.{◌≡◌, ◌≤◌};
ghost use Rattle.policy_text_defs.specs.declared.setting.Setting.TheVariants as setting;
ghost use Rattle.policy_text_defs.specs.Ranges.{bound_most};
ghost use Rattle.policy_text_defs.specs.Settings as settings;
ghost use Rattle.policy_text_defs.specs.StatementReading as forms;
ghost use Rattle.policy_text.specs.Reads.{Reads, Makes, Takes, same};

use crate::attributes::{UNSET, set};
use crate::cursor::Cursor;
use policy_text_defs::{Attribute, Bound, Queueing, Setting, Settings, group_of};
use rank_defs::FlowGroup;
use text_core::{Item, Refusal};

/// The least limit of a leaf or node.
pub const LIMIT_LEAST: u64 = 1;

const NO_SETTINGS: Settings = Settings {
    attrs: UNSET,
    queueing: Queueing {
        packets: None,
        bytes: None,
        per_flow: None,
        by: None,
    },
};

fn is_unset(bound: Bound, queueing: &Queueing) -> bool
    ensures { result ≡ settings.is_open (settings.bound_value bound queueing.now) }
{
    match bound {
        Bound::Packets => queueing.packets.is_none(),
        Bound::Bytes => queueing.bytes.is_none(),
        Bound::PerFlow => queueing.per_flow.is_none(),
    }
}

/// Returns the limits with this one set to a number in its range.
fn with(bound: Bound, number: u64, queueing: Queueing) -> Queueing
    requires { number ≤ bound_most bound }
    ensures { result ≡ settings.with_bound bound number queueing }
{
    match bound {
        Bound::Packets => Queueing {
            packets: Some(number as u32),
            ..queueing
        },
        Bound::Bytes => Queueing {
            bytes: Some(number as u32),
            ..queueing
        },
        Bound::PerFlow => Queueing {
            per_flow: Some(number as u32),
            ..queueing
        },
    }
}

/// Sets a limit that isn't set yet, to a number in its range; otherwise the line is malformed.
#[tactic(auto, unfolding(policy_text_defs::specs::StatementReading::limit_to))]
fn limit_to(given: Settings, number: u64, bound: Bound) -> Result<Settings, Refusal>
    ensures { Makes same (forms.limit_to given number bound) result }
{
    if !is_unset(bound, &given.queueing) || number < LIMIT_LEAST || number > bound.most() {
        return Err(Refusal::NoForm);
    }
    Ok(Settings {
        queueing: with(bound, number, given.queueing),
        ..given
    })
}

/// Sets by what flows are told apart, if it isn't set yet; otherwise the line is malformed.
#[tactic(auto, unfolding(policy_text_defs::specs::StatementReading::flow_to))]
fn flow_to(given: Settings, group: FlowGroup) -> Result<Settings, Refusal>
    ensures { Makes same (forms.flow_to given group) result }
{
    if given.queueing.by.is_some() {
        return Err(Refusal::NoForm);
    }
    Ok(Settings {
        queueing: Queueing {
            by: Some(group),
            ..given.queueing
        },
        ..given
    })
}

impl<'a> Cursor<'a> {
    /// Takes the first word of a setting, if it is the next token.
    fn setting(&mut self) -> Option<Setting>
        ensures { Takes same forms.setting_at result self.old.rest.now self.new.rest.now }
    {
        let [Item::Word(word), rest @ ..] = self.rest else {
            return None;
        };
        let setting = Setting::of(word)?;
        self.rest = rest;
        Some(setting)
    }

    /// Takes the first word of a limit's unit, if it is the next token.
    fn takes_unit(&mut self) -> Option<Bound>
        ensures { Takes same forms.unit_ahead result self.old.rest.now self.new.rest.now }
    {
        let [Item::Word(word), rest @ ..] = self.rest else {
            return None;
        };
        let bound = Bound::of(word)?;
        self.rest = rest;
        Some(bound)
    }

    /// Reads the rest of a unit after its first word.
    fn unit_rest(&mut self, bound: Bound) -> Result<Bound, Refusal>
        ensures { Reads same (forms.unit_rest bound) result self.old.rest.now self.new.rest.now }
    {
        match bound {
            Bound::Packets => Ok(Bound::Packets),
            Bound::Bytes => Ok(Bound::Bytes),
            Bound::PerFlow => {
                self.literal("flow")?;
                Ok(Bound::PerFlow)
            }
        }
    }

    /// Reads the unit of a limit, which is packets if none follows.
    #[tactic(auto, unfolding(policy_text_defs::specs::StatementReading::unit))]
    fn unit(&mut self) -> Result<Bound, Refusal>
        ensures { Reads same forms.unit result self.old.rest.now self.new.rest.now }
    {
        match self.takes_unit() {
            None => Ok(Bound::Packets),
            Some(bound) => self.unit_rest(bound),
        }
    }

    /// Reads a limit after its first word.
    fn limit_next(&mut self, given: Settings) -> Result<Settings, Refusal>
        ensures { Reads same (forms.limit_next given) result self.old.rest.now self.new.rest.now }
    {
        let number = self.number()?;
        let bound = self.unit()?;
        limit_to(given, number, bound)
    }

    /// Reads the keys of a flow after `src`.
    #[tactic(auto, unfolding(policy_text_defs::specs::StatementReading::source_keys))]
    fn source_keys(&mut self) -> Result<FlowGroup, Refusal>
        ensures { Reads same forms.source_keys result self.old.rest.now self.new.rest.now }
    {
        if self.takes_word("dst") {
            return Ok(FlowGroup::Hosts);
        }
        Ok(FlowGroup::Source)
    }

    /// Reads by what flows are told apart.
    #[tactic(auto, unfolding(policy_text_defs::specs::StatementReading::keys))]
    fn keys(&mut self) -> Result<FlowGroup, Refusal>
        ensures { Reads same forms.keys result self.old.rest.now self.new.rest.now }
    {
        match group_of(self.word()?) {
            None => Err(Refusal::NoForm),
            Some(FlowGroup::Source) => self.source_keys(),
            Some(group) => Ok(group),
        }
    }

    /// Reads by what flows are told apart, after the first word.
    fn flow_next(&mut self, given: Settings) -> Result<Settings, Refusal>
        ensures { Reads same (forms.flow_next given) result self.old.rest.now self.new.rest.now }
    {
        self.literal("by")?;
        let group = self.keys()?;
        flow_to(given, group)
    }

    /// Reads an attribute after its word.
    fn attribute_next(&mut self, attribute: Attribute, given: Settings) -> Result<Settings, Refusal>
        ensures { Reads same (forms.setting_next (setting.Attribute attribute) given) result
            self.old.rest.now self.new.rest.now }
    {
        let number = self.number()?;
        let attrs = set(attribute, number, given.attrs)?;
        Ok(Settings { attrs, ..given })
    }

    /// Reads a setting after its first word.
    fn setting_next(&mut self, setting: Setting, given: Settings) -> Result<Settings, Refusal>
        ensures { Reads same (forms.setting_next setting given) result self.old.rest.now
            self.new.rest.now }
    {
        match setting {
            Setting::Attribute(attribute) => self.attribute_next(attribute, given),
            Setting::Limit => self.limit_next(given),
            Setting::Flow => self.flow_next(given),
        }
    }

    /// Reads settings in any order, each at most once.
    #[tactic(auto, using(policy_text_defs::proofs::RepeatLoops::repeats_start, policy_text_defs::proofs::RepeatLoops::repeats_over))]
    pub fn settings(&mut self) -> Result<Settings, Refusal>
        ensures { Reads same forms.settings result self.old.rest.now self.new.rest.now }
    {
        let mut given = NO_SETTINGS;
        while let Some(setting) = self.setting() {
            given = self.setting_next(setting, given)?;
        }
        Ok(given)
    }
}
