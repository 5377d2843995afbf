//! Prints a statement.
ghost use Rattle.std.specs.Prelude.{◌≡◌, ◌++◌, OnOk};
ghost use Rattle.policy_text_defs.specs.declared.attribute.Attribute.TheVariants as attribute;
ghost use Rattle.policy_text_defs.specs.Phrase.{phrase_of};
ghost use Rattle.policy_text_defs.specs.Sense.{sense_of};
ghost use Rattle.policy_text.specs.Printing.{vertex_text};
ghost use Rattle.policy_text_defs.specs.Canonical.{span_text, attribute_text, attributes_text, unit_text, limit_text, keys_text, flow_text, queueing_text, names_text, declaration_text, assignment_text, statement_text};

use crate::printing::condition::{put_between, put_guard};
use crate::printing::expression::put_term;
use crate::printing::test::put_alternatives;
use list_core::Name;
use policy_text_defs::{Attrs, Bound, Queueing, Statement, Term};
use rank_defs::{FlowGroup, Span};
use std::alloc::AllocError;
use text_core::put_decimal;

fn put_name(into: &mut Vec<u8>, name: &Name) -> Result<(), AllocError>
    ensures { OnOk result (into.new.items ≡ into.old.items ++ name.now) }
{
    into.extend_from_slice(name.as_str().as_bytes())
}

/// Appends `LOW..HIGH = FIRST`.
fn put_span(into: &mut Vec<u8>, span: &Span) -> Result<(), AllocError>
    ensures { OnOk result (into.new.items ≡ into.old.items ++ span_text span.now) }
{
    put_between(into, span.low, span.high)?;
    into.extend_from_slice(b" = ")?;
    put_decimal(into, span.first as u128)
}

fn put_attributes(into: &mut Vec<u8>, attrs: &Attrs) -> Result<(), AllocError>
    ensures { OnOk result (into.new.items ≡ into.old.items ++ attributes_text attrs.now) }
{
    put_prio(into, attrs.prio)?;
    put_weight(into, attrs.weight)?;
    put_slack(into, attrs.slack)
}

fn put_prio(into: &mut Vec<u8>, prio: Option<u32>) -> Result<(), AllocError>
    ensures { OnOk result (into.new.items ≡ into.old.items ++ attribute_text attribute.Prio prio) }
{
    let Some(prio) = prio else {
        return Ok(());
    };
    into.extend_from_slice(b" prio ")?;
    put_decimal(into, prio as u128)
}

fn put_weight(into: &mut Vec<u8>, weight: Option<u32>) -> Result<(), AllocError>
    ensures { OnOk result (into.new.items ≡ into.old.items ++ attribute_text attribute.Weight
        weight) }
{
    let Some(weight) = weight else {
        return Ok(());
    };
    into.extend_from_slice(b" weight ")?;
    put_decimal(into, weight as u128)
}

/// Appends the slack in nanoseconds, if there is one.
fn put_slack(into: &mut Vec<u8>, slack: Option<u64>) -> Result<(), AllocError>
    ensures { OnOk result (into.new.items ≡ into.old.items ++ attribute_text attribute.Slack
        slack) }
{
    let Some(slack) = slack else {
        return Ok(());
    };
    into.extend_from_slice(b" slack ")?;
    put_decimal(into, slack as u128)
}

/// Appends the unit of a limit with the space before it, or nothing if it is in packets.
fn put_unit(into: &mut Vec<u8>, bound: Bound) -> Result<(), AllocError>
    ensures { OnOk result (into.new.items ≡ into.old.items ++ unit_text bound) }
{
    match bound {
        Bound::Packets => Ok(()),
        Bound::Bytes => into.extend_from_slice(b" bytes"),
        Bound::PerFlow => into.extend_from_slice(b" per flow"),
    }
}

fn put_limit(into: &mut Vec<u8>, bound: Bound, limit: Option<u32>) -> Result<(), AllocError>
    ensures { OnOk result (into.new.items ≡ into.old.items ++ limit_text bound limit) }
{
    let Some(limit) = limit else {
        return Ok(());
    };
    into.extend_from_slice(b" limit ")?;
    put_decimal(into, limit as u128)?;
    put_unit(into, bound)
}

fn put_keys(into: &mut Vec<u8>, group: FlowGroup) -> Result<(), AllocError>
    ensures { OnOk result (into.new.items ≡ into.old.items ++ keys_text group) }
{
    match group {
        FlowGroup::Source => into.extend_from_slice(b"src"),
        FlowGroup::Target => into.extend_from_slice(b"dst"),
        FlowGroup::Hosts => into.extend_from_slice(b"src dst"),
        FlowGroup::FiveTuple => into.extend_from_slice(b"5tuple"),
    }
}

fn put_flow(into: &mut Vec<u8>, group: Option<FlowGroup>) -> Result<(), AllocError>
    ensures { OnOk result (into.new.items ≡ into.old.items ++ flow_text group) }
{
    let Some(group) = group else {
        return Ok(());
    };
    into.extend_from_slice(b" flow by ")?;
    put_keys(into, group)
}

/// Appends the limits of a leaf or node, and by what it tells flows apart.
fn put_queueing(into: &mut Vec<u8>, queueing: &Queueing) -> Result<(), AllocError>
    ensures { OnOk result (into.new.items ≡ into.old.items ++ queueing_text queueing.now) }
{
    put_limit(into, Bound::Packets, queueing.packets)?;
    put_limit(into, Bound::Bytes, queueing.bytes)?;
    put_limit(into, Bound::PerFlow, queueing.per_flow)?;
    put_flow(into, queueing.by)
}

/// Appends names, each with the space before it.
fn put_names(into: &mut Vec<u8>, names: &[Name]) -> Result<(), AllocError>
    ensures { OnOk result (into.new.items ≡ into.old.items ++ names_text names.now) }
{
    for name in names {
        into.extend_from_slice(b" ")?;
        put_name(into, name)?;
    }
    Ok(())
}

/// Appends the declaration of a variable.
fn put_declaration(
    into: &mut Vec<u8>,
    keyword: &[u8],
    name: &Name,
    span: &Span,
) -> Result<(), AllocError>
    ensures { OnOk result (into.new.items ≡ into.old.items ++ declaration_text keyword.now name.now
        span.now) }
{
    into.extend_from_slice(keyword)?;
    put_name(into, name)?;
    into.extend_from_slice(b" ")?;
    put_span(into, span)
}

fn put_assignment(
    into: &mut Vec<u8>,
    keyword: &[u8],
    name: &Name,
    value: &Term,
) -> Result<(), AllocError>
    ensures { OnOk result (into.new.items ≡ into.old.items ++ assignment_text keyword.now name.now
        (phrase_of value.now)) }
{
    into.extend_from_slice(keyword)?;
    put_name(into, name)?;
    into.extend_from_slice(b" = ")?;
    put_term(into, value)
}

/// Appends the first part of a leaf or node: its name, its transaction and its attributes.
fn put_vertex(
    into: &mut Vec<u8>,
    keyword: &[u8],
    name: &Name,
    used: &Name,
    attrs: &Attrs,
) -> Result<(), AllocError>
    ensures { OnOk result (into.new.items ≡ into.old.items ++ vertex_text keyword.now name.now
        used.now attrs.now) }
{
    into.extend_from_slice(keyword)?;
    put_name(into, name)?;
    into.extend_from_slice(b" using ")?;
    put_name(into, used)?;
    put_attributes(into, attrs)
}

/// Appends the canonical line of a statement, without its line feed.
pub fn put_statement(into: &mut Vec<u8>, statement: &Statement) -> Result<(), AllocError>
    ensures { OnOk result (into.new.items ≡ into.old.items ++ statement_text
        (sense_of statement.now)) }
{
    match statement {
        Statement::Version(version) => {
            into.extend_from_slice(b"policy ")?;
            put_decimal(into, *version as u128)
        }
        Statement::Transaction(name) => {
            into.extend_from_slice(b"transaction ")?;
            put_name(into, name)
        }
        Statement::Keep(name, span) => put_declaration(into, b"keep ", name, span),
        Statement::Each(name, span) => put_declaration(into, b"each ", name, span),
        Statement::Push(name, value) => put_assignment(into, b"push ", name, value),
        Statement::Pop(name, value) => put_assignment(into, b"pop ", name, value),
        Statement::Class(name, attrs, conditions) => {
            into.extend_from_slice(b"class ")?;
            put_name(into, name)?;
            put_attributes(into, attrs)?;
            put_guard(into, conditions.as_slice())
        }
        Statement::Filter(name, attrs, alternatives) => {
            into.extend_from_slice(b"class ")?;
            put_name(into, name)?;
            put_attributes(into, attrs)?;
            put_alternatives(into, alternatives.as_slice())
        }
        Statement::Leaf(name, used, attrs, queueing, classes) => {
            put_vertex(into, b"leaf ", name, used, attrs)?;
            put_queueing(into, queueing)?;
            into.extend_from_slice(b" classes")?;
            put_names(into, classes.as_slice())
        }
        Statement::Node(name, used, attrs, queueing, children) => {
            put_vertex(into, b"node ", name, used, attrs)?;
            put_queueing(into, queueing)?;
            into.extend_from_slice(b" children")?;
            put_names(into, children.as_slice())
        }
    }
}
