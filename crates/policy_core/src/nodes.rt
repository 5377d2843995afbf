//! The records of the nodes and leaves that statements declare.
ghost use Rattle.std.specs.Prelude.{◌≡◌, true, List, IfOk, OnOk};
ghost use Rattle.policy_text_defs.specs.Sense.{Entry, sense_of};
ghost use Rattle.policy_rules.specs.Accepted.{AreFew};
ghost use Rattle.policy_rules.specs.Clauses.{is_known, is_transaction_known};
ghost use Rattle.policy_rules.specs.Entries.{entries_of, AreRising};
ghost use Rattle.policy_rules.specs.Graph.{nodes_in};
ghost use Rattle.policy_rules.specs.Names.{declared, transaction_name};
ghost use Rattle.policy_rules.specs.Resolved.{marks_of, limits_of, group_of};
ghost use Rattle.policy_rules.specs.Known.{known_programs, WhereDeclared};
ghost use Rattle.policy_core.specs.Made.{nodes_told, IsPlaceOf, IsPolicyNodeOf, AreMore};
ghost use Rattle.policy_core.specs.Parts.{HavePrograms, told};

use crate::parts::{Marks, PolicyNode};
use list_core::{List, Name};
use policy_defs::Limits;
use policy_rules::{Names, program_place};
use policy_text_defs::{Attrs, Queueing, Statement};
use rank_defs::FlowGroup;
use std::alloc::{AllocError, Global};

/// Returns the marks that attributes set. The defaults are priority 0, weight 1 and slack 0.
pub(crate) fn marks(attrs: &Attrs) -> Marks
    ensures { told result ≡ marks_of attrs.now }
{
    Marks {
        prio: attrs.prio.unwrap_or(0),
        weight: attrs.weight.unwrap_or(1),
        slack: attrs.slack.unwrap_or(0),
    }
}

/// Returns the limits that a leaf or node sets.
fn limits(queueing: Queueing) -> Limits
    ensures { result ≡ limits_of queueing }
{
    Limits {
        packets: queueing.packets,
        bytes: queueing.bytes,
        per_flow: queueing.per_flow,
    }
}

/// Returns the fields by which a leaf or node groups packets into flows. The default is all five.
fn group(queueing: Queueing) -> FlowGroup
    ensures { result ≡ group_of queueing }
{
    queueing.by.unwrap_or(FlowGroup::FiveTuple)
}

/// Returns the index of the program that a name denotes.
fn program(transactions: &Names<'_>, used: &str) -> usize
    ensures program { WhereDeclared transactions.now (λ es. is_transaction_known es used.now ≡
        true → IsPlaceOf es used.now result) }
{
    program_place(transactions, used).unwrap_or(0)
}

/// Builds the record of a node or leaf.
fn policy_node(
    alloc: Global,
    transactions: &Names<'_>,
    name: &Name,
    used: &Name,
    attrs: &Attrs,
    queueing: Queueing,
) -> Result<PolicyNode, AllocError>
    ensures policy_node { WhereDeclared transactions.now (λ es.
        is_transaction_known es used.now ≡ true
        → IfOk result (IsPolicyNodeOf es name.now used.now attrs.now queueing)) }
{
    Ok(PolicyNode {
        name: Name::new(alloc, name.as_str())?,
        using: Name::new(alloc, used.as_str())?,
        program: program(transactions, used.as_str()),
        marks: marks(attrs),
        limits: limits(queueing),
        group: group(queueing),
    })
}

/// Adds the record of a statement, if it declares a node or leaf.
fn add_policy_node(
    alloc: Global,
    policy_nodes: &mut List<PolicyNode>,
    transactions: &Names<'_>,
    statement: &Statement,
) -> Result<(), AllocError>
    ensures added { WhereDeclared transactions.now (λ es. (earlier : List Entry) →
        is_known es earlier (sense_of statement.now) ≡ true
        → HavePrograms policy_nodes.old (known_programs es) → OnOk result (AreMore es (sense_of statement.now) policy_nodes.old policy_nodes.new)) }
{
    match statement {
        Statement::Leaf(name, used, attrs, queueing, _) => {
            policy_nodes.push(policy_node(alloc, transactions, name, used, attrs, *queueing)?)
        }
        Statement::Node(name, used, attrs, queueing, _) => {
            policy_nodes.push(policy_node(alloc, transactions, name, used, attrs, *queueing)?)
        }
        _ => Ok(()),
    }
}

/// Returns the records of all nodes and leaves, in the order of their statements. The error means
/// out of memory.
pub(crate) fn policy_nodes(
    alloc: Global,
    lines: &[(u32, Statement)],
    transactions: &Names<'_>,
) -> Result<List<PolicyNode>, AllocError>
    requires rising { AreRising (entries_of lines.now) }
    requires few { AreFew (entries_of lines.now) }
    requires transactions { transactions.now ≡ declared transaction_name (entries_of lines.now) }
    ensures nodes { IfOk result (λ all. nodes_told (known_programs (entries_of lines.now)) all ≡
        nodes_in (entries_of lines.now)) }
    ensures programs { IfOk result (λ all. HavePrograms all (known_programs
        (entries_of lines.now))) }
{
    let mut policy_nodes = List::from_vec(Vec::new(alloc));
    for (_, statement) in lines {
        add_policy_node(alloc, &mut policy_nodes, transactions, statement)?;
    }
    Ok(policy_nodes)
}
