//! The policy of an office, whose statements are in specs/Office.antt.
ghost use Rattle.std.specs.Prelude.{◌≡◌, ◌∷◌, ◌++◌, [], map, IfOk, OnOk};
ghost use Rattle.policy_text_defs.specs.Sense.{sense_of, class, leaf, node};
ghost use Rattle.policy_text_defs.specs.Statements.{unset};
ghost use Rattle.policy_text_defs.specs.Settings.{no_queueing};
ghost use Rattle.policy_rules.specs.Accepted.{AreAccepted};
ghost use Rattle.policy_rules.specs.Resolved.{IsResolved};
ghost use Rattle.policy_rules.specs.declared.fault.PolicyFault.TheVariants.{NoMemory};
ghost use Rattle.policy_core.specs.Office.{of_prio, of_weight, office_classes, office_leaves, office_nodes, office_statements, office_lines};

use crate::policy::Policy;
use crate::resolution::resolve;
use list_core::{List, Name};
use policy_rules::PolicyFault;
use policy_text::Lines;
use policy_text_defs::Condition::{Dest, Field};
use policy_text_defs::FieldName::{Dport, Dscp, Proto};
use policy_text_defs::{Attrs, Condition, Queueing, Statement};
use std::alloc::{AllocError, Global};

const UNSET: Attrs = Attrs {
    prio: None,
    weight: None,
    slack: None,
};

const NO_QUEUEING: Queueing = Queueing {
    packets: None,
    bytes: None,
    per_flow: None,
    by: None,
};

const TCP: Condition = Field(Proto, 6, 6);

const UDP: Condition = Field(Proto, 17, 17);

/// 10.9.0.0/16
const BACKUP_NETWORK: Condition = Dest(0x0a09_0000, 16);

fn names(alloc: Global, names: &[&str]) -> Result<List<Name>, AllocError>
    ensures { IfOk result (λ all. all ≡ map (λ n. n.now) names.now) }
{
    let mut all = List::from_vec(Vec::new(alloc));
    for name in names {
        all.push(Name::new(alloc, name)?)?;
    }
    Ok(all)
}

fn add_class(
    alloc: Global,
    all: &mut List<Statement>,
    name: &str,
    conditions: &[Condition],
) -> Result<(), AllocError>
    ensures { OnOk result (map sense_of all.new ≡ map sense_of all.old ++ class name.now unset
        conditions.now ∷ []) }
{
    let name = Name::new(alloc, name)?;
    let conditions = List::from_vec(Vec::from_slice(alloc, conditions)?);
    all.push(Statement::Class(name, UNSET, conditions))
}

/// Adds a leaf for the class of the same name.
fn add_leaf(
    alloc: Global,
    all: &mut List<Statement>,
    name: &str,
    used: &str,
    weight: Option<u32>,
) -> Result<(), AllocError>
    ensures { OnOk result (map sense_of all.new ≡ map sense_of all.old ++ leaf name.now used.now
        (of_weight weight) no_queueing (name.now ∷ []) ∷ []) }
{
    let classes = names(alloc, &[name])?;
    let name = Name::new(alloc, name)?;
    let used = Name::new(alloc, used)?;
    let attrs = Attrs { weight, ..UNSET };
    all.push(Statement::Leaf(name, used, attrs, NO_QUEUEING, classes))
}

fn add_node(
    alloc: Global,
    all: &mut List<Statement>,
    name: &str,
    used: &str,
    prio: Option<u32>,
    children: &[&str],
) -> Result<(), AllocError>
    ensures { OnOk result (map sense_of all.new ≡ map sense_of all.old
        ++ node name.now used.now (of_prio prio) no_queueing (map (λ n. n.now) children.now) ∷ []) }
{
    let name = Name::new(alloc, name)?;
    let used = Name::new(alloc, used)?;
    let children = names(alloc, children)?;
    let attrs = Attrs { prio, ..UNSET };
    all.push(Statement::Node(name, used, attrs, NO_QUEUEING, children))
}

fn add_classes(alloc: Global, all: &mut List<Statement>) -> Result<(), AllocError>
    ensures { OnOk result (map sense_of all.new ≡ map sense_of all.old ++ office_classes) }
{
    add_class(alloc, all, "voice", &[Field(Dscp, 46, 46)])?;
    add_class(alloc, all, "video", &[Field(Dscp, 34, 34)])?;
    add_class(alloc, all, "ssh", &[TCP, Field(Dport, 22, 22)])?;
    add_class(alloc, all, "dns", &[UDP, Field(Dport, 53, 53)])?;
    add_class(alloc, all, "web", &[TCP, Field(Dport, 443, 443)])?;
    add_class(alloc, all, "mail", &[TCP, Field(Dport, 25, 25)])?;
    add_class(alloc, all, "backup", &[BACKUP_NETWORK])?;
    add_class(alloc, all, "other", &[])
}

fn add_leaves(alloc: Global, all: &mut List<Statement>) -> Result<(), AllocError>
    ensures { OnOk result (map sense_of all.new ≡ map sense_of all.old ++ office_leaves) }
{
    add_leaf(alloc, all, "voice", "fifo", Some(4))?;
    add_leaf(alloc, all, "video", "fifo", Some(2))?;
    add_leaf(alloc, all, "ssh", "fifo", None)?;
    add_leaf(alloc, all, "dns", "fifo", None)?;
    add_leaf(alloc, all, "web", "stfq", Some(4))?;
    add_leaf(alloc, all, "mail", "fifo", Some(2))?;
    add_leaf(alloc, all, "backup", "fifo", None)?;
    add_leaf(alloc, all, "other", "fifo", None)
}

fn add_nodes(alloc: Global, all: &mut List<Statement>) -> Result<(), AllocError>
    ensures { OnOk result (map sense_of all.new ≡ map sense_of all.old ++ office_nodes) }
{
    let urgent = ["voice", "video", "ssh", "dns"];
    let normal = ["web", "mail", "backup", "other"];
    add_node(alloc, all, "urgent", "stfq", Some(0), &urgent)?;
    add_node(alloc, all, "normal", "stfq", Some(1), &normal)?;
    add_node(alloc, all, "root", "strict", None, &["urgent", "normal"])
}

/// Returns the statements of the office. The error means out of memory.
pub(crate) fn statements(alloc: Global) -> Result<List<Statement>, AllocError>
    ensures { IfOk result (λ all. map sense_of all ≡ office_statements) }
{
    let mut all = List::from_vec(Vec::new(alloc));
    all.push(Statement::Version(1))?;
    add_classes(alloc, &mut all)?;
    add_leaves(alloc, &mut all)?;
    add_nodes(alloc, &mut all)?;
    Ok(all)
}

/// Converts the only possible error of statements that fail no clause: out of memory.
fn want(fault: PolicyFault) -> AllocError
    requires want { fault ≡ NoMemory }
{
    match fault {
        PolicyFault::NoMemory => AllocError,
        _ => unreachable!(),
    }
}

impl Policy {
    /// Returns the policy of the office. The error means out of memory; the statements themselves
    /// fail no clause.
    pub fn office(alloc: Global) -> Result<Policy, AllocError>
        ensures accepted { OnOk result (AreAccepted office_lines) }
        ensures policy { IfOk result (IsResolved office_lines) }
    {
        let lines = Lines::of(alloc, statements(alloc)?)?;
        match resolve(alloc, &lines) {
            Ok(policy) => Ok(policy),
            Err(fault) => Err(want(fault)),
        }
    }
}
