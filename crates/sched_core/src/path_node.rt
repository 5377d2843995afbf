//! The nodes on the path of each class.
ghost use Rattle.std.specs.Prelude.{◌≡◌, ◌<◌, IfOk};
ghost use Rattle.tree_defs.specs.Tree.{LeadsToLeaf, nodes};
ghost use Rattle.rank_defs.specs.Programs.{program_of};
ghost use Rattle.rank_core.specs.Forms.{IsForm};
ghost use Rattle.policy_core.specs.Numbering.{address_at, HasAt};
ghost use Rattle.policy_core.specs.Parts.{class_in, told};
ghost use Rattle.sched_core.specs.PathNodes.{rank_told, program_at, ArePathNodes, IsClassPath, AreWays};

use policy_core::{Class, Marks, Policy};
use rank_core::{Aim, Expr, Form, Transaction, Var, pop_form, push_form};
use rank_defs::FlowGroup;
use std::alloc::{AllocError, Global};

/// A node on the path of a class: its number, its transaction, the fields by which it tells flows
/// apart, the forms of its push and pop steps, the marks that its steps use, and the rank of its push
/// step, if these marks alone determine it and the step does nothing else.
#[derive(Drop)]
pub struct PathNode<'a> {
    pub node: u32,
    pub transaction: &'a Transaction,
    pub group: FlowGroup,
    pub marks: Marks,
    pub told: Option<u64>,
    pub push: Form,
    pub pop: Form,
}

/// What each event of a class needs: the number of its leaf, the limit on packets there, the fields
/// by which the leaf tells flows apart, its address, and the nodes on the path from the root.
#[derive(Drop)]
pub struct ClassPath<'a> {
    pub leaf: u32,
    pub limit: Option<u32>,
    pub group: FlowGroup,
    pub digits: &'a [u32],
    pub nodes: Vec<PathNode<'a>>,
}

/// Returns the rank of a push step, if marks alone determine it and the step does nothing else. It
/// is 0 if the step has no lines.
fn rank_told(transaction: &Transaction, marks: &Marks) -> Option<u64>
    ensures { result ≡ rank_told (program_of transaction.now).push (told marks.now) }
{
    match transaction.push.as_slice() {
        [] => Some(0),
        [assign] => match (assign.aim, &assign.value) {
            (Aim::Rank, Expr::Var(Var::Prio)) => Some(u64::from(marks.prio)),
            (Aim::Rank, Expr::Var(Var::Weight)) => Some(u64::from(marks.weight)),
            (Aim::Rank, Expr::Var(Var::Slack)) => Some(marks.slack),
            _ => None,
        },
        _ => None,
    }
}

/// Returns the path node of a node whose steps use these marks.
fn path_node_at<'a>(policy: &'a Policy, node: u32, marks: Marks) -> PathNode<'a>
    requires there { node < nodes policy.now.policy.tree }
    ensures node { result.node ≡ node }
    ensures program { HasAt policy.now.policy.tree node (λ n. program_at result ≡ n.program) }
    ensures group { HasAt policy.now.policy.tree node (λ n. result.group ≡ n.group) }
    ensures marks { result.marks ≡ marks }
    ensures told { result.told ≡ rank_told (program_at result).push (told marks) }
    ensures push { IsForm (program_at result) (program_at result).push result.push }
    ensures pop { IsForm (program_at result) (program_at result).pop result.pop }
{
    let transaction = policy.checked(node).transaction();
    PathNode {
        node,
        transaction,
        group: policy.group(node),
        marks,
        told: rank_told(transaction, &marks),
        push: push_form(transaction),
        pop: pop_form(transaction),
    }
}

/// Returns the nodes on the path of a class, from the root down. The error means out of memory.
fn path_nodes_of<'a>(
    alloc: Global,
    policy: &'a Policy,
    class: &Class,
) -> Result<Vec<PathNode<'a>>, AllocError>
    requires there { class.now.leaf < nodes policy.now.policy.tree }
    requires leads { LeadsToLeaf policy.now.policy.tree (address_at policy.now.policy.tree
        class.now.leaf) }
    ensures { IfOk result (λ path_nodes. ArePathNodes policy.now.policy.tree
        (class_in policy.now.policy.tree class.now) path_nodes.items) }
{
    let digits = policy.address(class.leaf);
    let mut path_nodes = Vec::with_capacity(alloc, digits.len() + 1)?;
    let mut node = 0;
    for digit in digits {
        let child = policy.child(node, *digit);
        path_nodes.push(path_node_at(policy, node, policy.attrs(child)))?;
        node = child;
    }
    path_nodes.push(path_node_at(policy, node, class.marks))?;
    Ok(path_nodes)
}

/// Returns what the events of a class need. The error means out of memory.
fn class_path<'a>(
    alloc: Global,
    policy: &'a Policy,
    class: &Class,
) -> Result<ClassPath<'a>, AllocError>
    requires there { class.now.leaf < nodes policy.now.policy.tree }
    requires leads { LeadsToLeaf policy.now.policy.tree (address_at policy.now.policy.tree
        class.now.leaf) }
    ensures { IfOk result (IsClassPath policy.now.policy
        (class_in policy.now.policy.tree class.now)) }
{
    Ok(ClassPath {
        leaf: class.leaf,
        limit: policy.limits(class.leaf).packets,
        group: policy.group(class.leaf),
        digits: policy.address(class.leaf),
        nodes: path_nodes_of(alloc, policy, class)?,
    })
}

/// Returns what the events of each class need, by class number. The error means out of memory.
pub fn class_paths<'a>(alloc: Global, policy: &'a Policy) -> Result<Vec<ClassPath<'a>>, AllocError>
    ensures { IfOk result (λ paths. AreWays policy.now.policy paths.items) }
{
    let classes = policy.classes();
    let mut paths = Vec::with_capacity(alloc, classes.len())?;
    for class in classes {
        paths.push(class_path(alloc, policy, class)?)?;
    }
    Ok(paths)
}
