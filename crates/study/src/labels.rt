//! The names and weights of the leaves and classes of a policy.
ghost use Rattle.std.specs.Prelude.{◌≡◌, ◌<◌, ◌++◌, IfOk, OnOk};
ghost use Rattle.tree_defs.specs.Tree.{nodes};
ghost use Rattle.policy_defs.specs.Accepted.{IsAccepted};
ghost use Rattle.study.specs.Labels.{leaf_label, leaf_labels, all_leaf_labels, leaf_table, class_label, held_labels, HasIndices};

use list_core::Name;
use policy_core::Policy;
use policy_text::Lines;
use policy_text_defs::Statement;
use std::alloc::{AllocError, Global};
use summary_core::Label;

/// The labels of a policy's leaves, and for each node the number of leaves before it.
#[derive(Drop)]
pub struct Leaves {
    pub labels: Vec<Label>,
    pub before: Vec<u32>,
}

/// Appends the label of a node, if it is a leaf.
fn put_leaf(
    alloc: Global,
    policy: &Policy,
    node: u32,
    labels: &mut Vec<Label>,
) -> Result<(), AllocError>
    requires there { node < nodes policy.now.policy.tree }
    ensures { OnOk result (labels.new.items ≡ labels.old.items ++ leaf_label policy.now.policy.tree
        node) }
{
    if policy.is_leaf(node) {
        let name = Name::new(alloc, policy.name(node))?;
        let weight = policy.attrs(node).weight;
        labels.push(Label { name, weight })?;
    }
    Ok(())
}

/// Returns the labels of a policy's leaves, in the order of the tree.
pub fn leaves_of(alloc: Global, policy: &Policy) -> Result<Leaves, AllocError>
    ensures labels { IfOk result (λ l. l.labels.items ≡ all_leaf_labels policy.now.policy.tree) }
    ensures before { IfOk result (λ l. HasIndices policy.now.policy.tree l.before.items) }
{
    let mut labels = Vec::new(alloc);
    let mut before = Vec::new(alloc);
    for node in 0..policy.count() {
        before.push(labels.len() as u32)?;
        put_leaf(alloc, policy, node, &mut labels)?;
    }
    Ok(Leaves { labels, before })
}

/// Returns the index of each class's leaf among the leaves.
pub fn leaf_table(alloc: Global, policy: &Policy, leaves: &Leaves) -> Result<Vec<u32>, AllocError>
    requires indices { HasIndices policy.now.policy.tree leaves.now.before.items }
    ensures table { IfOk result (λ table. table.items ≡ leaf_table policy.now.policy) }
    ensures accepted { IsAccepted policy.now.policy }
{
    let mut table = Vec::new(alloc);
    for class in policy.classes() {
        table.push(leaves.before[class.leaf as usize])?;
    }
    Ok(table)
}

/// Appends the label of a class, if the statement declares one.
fn put_class(
    alloc: Global,
    statement: &Statement,
    labels: &mut Vec<Label>,
) -> Result<(), AllocError>
    ensures { OnOk result (labels.new.items ≡ labels.old.items ++ class_label statement.now) }
{
    match statement {
        Statement::Class(name, attrs, _) | Statement::Filter(name, attrs, _) => {
            let name = Name::new(alloc, name.as_str())?;
            let weight = attrs.weight.unwrap_or(1);
            labels.push(Label { name, weight })?;
            Ok(())
        }
        _ => Ok(()),
    }
}

/// Returns the labels of a policy's classes, in the order of its text.
pub fn class_labels(alloc: Global, lines: &Lines) -> Result<Vec<Label>, AllocError>
    ensures { IfOk result (λ labels. labels.items ≡ held_labels lines.now.held) }
{
    let mut labels = Vec::new(alloc);
    for line in lines.entries() {
        put_class(alloc, &line.1, &mut labels)?;
    }
    Ok(labels)
}
