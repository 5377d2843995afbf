//! Finds the lines of the first node on a cycle and of the first node that is too deep.
ghost use Rattle.std.specs.Prelude.{◌≡◌, ◌<◌, is_some, length, OnOk, IfErr};
ghost use Rattle.policy_text_defs.specs.Sense.{sense_of};
ghost use Rattle.policy_rules.specs.Names.{declared, node_name};
ghost use Rattle.policy_rules.specs.Entries.{entries_of, AreRising};
ghost use Rattle.policy_rules.specs.Graph.{graph_of};
ghost use Rattle.policy_rules.specs.Accepted.{HaveRoot, AreShallow, IsFault};
ghost use Rattle.tree_graph.specs.Descent.{lists};
ghost use Rattle.policy_core.specs.Lines.{node_entries, line_at};

use crate::graphs::number;
use policy_rules::{Names, PolicyFault};
use policy_text_defs::Statement;
use std::alloc::Global;
use tree_graph::{first_deep, first_on_cycle, parents};

/// Rejects a node that is among its own descendants, and then a node or leaf that is too deep below
/// the root.
pub fn check_family(
    alloc: Global,
    lines: &[(u32, Statement)],
    nodes: &Names<'_>,
    graph: &[Vec<u32>],
) -> Result<(), PolicyFault>
    requires rising { AreRising (entries_of lines.now) }
    requires rooted { HaveRoot (entries_of lines.now) }
    requires nodes { nodes.now ≡ declared node_name (entries_of lines.now) }
    requires graph { lists graph.now ≡ graph_of (entries_of lines.now) }
    ensures ok { OnOk result (AreShallow (entries_of lines.now)) }
    ensures fault { IfErr result (IsFault (entries_of lines.now)) }
{
    if let Some(node) = first_on_cycle(alloc, graph)? {
        return Err(PolicyFault::Cycle(line_of(lines, node)));
    }
    let parents = parents(alloc, graph)?;
    if let Some(node) = first_deep(parents.as_slice(), number(nodes, "root")) {
        return Err(PolicyFault::Deep(line_of(lines, node)));
    }
    Ok(())
}

/// Returns the number of the line that declares a node.
fn line_of(lines: &[(u32, Statement)], node: u32) -> u32
    requires declared { node < length (node_entries (entries_of lines.now)) }
    ensures { result ≡ line_at (entries_of lines.now) node }
{
    let mut left = node;
    for (line, statement) in lines {
        if is_node(statement) {
            if left == 0 {
                return *line;
            }
            left -= 1;
        }
    }
    unreachable!()
}

fn is_node(statement: &Statement) -> bool
    ensures { result ≡ is_some (node_name (sense_of statement.now)) }
{
    matches!(statement, Statement::Leaf(..) | Statement::Node(..))
}
