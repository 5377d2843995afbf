//! Finds the leaf that lists each class.
ghost use Rattle.std.specs.Prelude.{◌≡◌, ℕ, ◌<◌, length, IfOk};
ghost use Rattle.policy_rules.specs.Names.{declared, class_name};
ghost use Rattle.policy_rules.specs.Entries.{entries_of, AreRising};
ghost use Rattle.policy_rules.specs.Clauses.{NoLine, IsRepeated, IsNotListedOnce};
ghost use Rattle.policy_rules.specs.Graph.{graph_of};
ghost use Rattle.tree_graph.specs.Descent.{times};
ghost use Rattle.tree_graph.specs.Row.{nodes_of};
ghost use Rattle.policy_core.specs.Homes.{AreHomes, ArePut};

use crate::numbers::places;
use list_core::Name;
use policy_rules::Names;
use policy_text_defs::Statement;
use std::alloc::{AllocError, Global};
use tree_graph::Preorder;

/// Stores the number of a leaf at the indices of the classes that it lists.
fn put(leaves: &mut [u32], classes: &Names<'_>, listed: &[Name], leaf: u32)
    requires len { length leaves.old ≡ length classes.now }
    ensures { ArePut classes.now listed.now leaf leaves.old leaves.new }
{
    for name in listed {
        if let Some(place) = classes.place(name.as_str()) {
            leaves[place] = leaf;
        }
    }
}

/// Returns for each class, in the order of the statements, the preorder number of the leaf that
/// lists it. The error means out of memory.
pub fn leaves(
    alloc: Global,
    lines: &[(u32, Statement)],
    classes: &Names<'_>,
    tree: &Preorder,
) -> Result<Vec<u32>, AllocError>
    requires rising { AreRising (entries_of lines.now) }
    requires apart { NoLine (IsRepeated (entries_of lines.now)) (entries_of lines.now) }
    requires listed { NoLine (IsNotListedOnce (entries_of lines.now)) (entries_of lines.now) }
    requires classes { classes.now ≡ declared class_name (entries_of lines.now) }
    requires count { length tree.now.rows ≡ length (graph_of (entries_of lines.now)) }
    requires once { (a : ℕ) → a < length tree.now.rows → times a (nodes_of tree.now.rows) ≡ 1 }
    ensures homes { IfOk result (λ l. AreHomes (entries_of lines.now) tree.now.rows l.items) }
{
    let places = places(alloc, tree)?;
    let mut leaves = vec![in alloc; 0; classes.len()]?;
    let mut node = 0;
    for (_, statement) in lines {
        match statement {
            Statement::Leaf(_, _, _, _, listed) => {
                put(
                    leaves.as_mut_slice(),
                    classes,
                    listed.as_slice(),
                    places[node],
                );
                node += 1;
            }
            Statement::Node(_, _, _, _, _) => node += 1,
            _ => {}
        }
    }
    Ok(leaves)
}
