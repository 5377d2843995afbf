//! Builds the graph of node numbers from names.
ghost use Rattle.std.specs.Prelude.{◌≡◌, ◌<◌, ◌≤◌, ◌^◌, true, map, length, ◌++◌, IfOk, OnOk};
ghost use Rattle.std.specs.List.{list_all};
ghost use Rattle.std.specs.Option.{option_to_list};
ghost use Rattle.policy_text_defs.specs.Sense.{sense_of};
ghost use Rattle.policy_rules.specs.Names.{has, declared, node_name, children};
ghost use Rattle.tree_defs.specs.Tree.{most_nodes};
ghost use Rattle.policy_rules.specs.Entries.{entries_of, AreRising};
ghost use Rattle.policy_rules.specs.Programs.{place};
ghost use Rattle.policy_rules.specs.Graph.{family, graph_of};
ghost use Rattle.policy_rules.specs.Accepted.{AreFew};
ghost use Rattle.tree_graph.specs.Descent.{lists};

use list_core::Name;
use policy_rules::Names;
use policy_text_defs::Statement;
use std::alloc::{AllocError, Global};

/// Returns the number of a declared node.
pub fn number(nodes: &Names<'_>, name: &str) -> u32
    requires small { length nodes.now < 2 ^ 32 }
    requires declared { has nodes.now name.now ≡ true }
    ensures { result ≡ place nodes.now name.now }
{
    match nodes.place(name) {
        Some(place) => place as u32,
        None => unreachable!(),
    }
}

fn numbers(alloc: Global, nodes: &Names<'_>, names: &[Name]) -> Result<Vec<u32>, AllocError>
    requires small { length nodes.now < 2 ^ 32 }
    requires declared { list_all (has nodes.now) names.now ≡ true }
    ensures { IfOk result (λ v. v.items ≡ map (place nodes.now) names.now) }
{
    let mut numbers = Vec::new(alloc);
    for name in names {
        numbers.push(number(nodes, name.as_str()))?;
    }
    Ok(numbers)
}

/// Adds the numbers of a node's children, or none for a leaf.
fn add_family(
    alloc: Global,
    graph: &mut Vec<Vec<u32>>,
    nodes: &Names<'_>,
    statement: &Statement,
) -> Result<(), AllocError>
    requires small { length nodes.now < 2 ^ 32 }
    requires declared { list_all (has nodes.now) (children (sense_of statement.now)) ≡ true }
    ensures { OnOk result (lists graph.new.items ≡ lists graph.old.items
        ++ map (map (place nodes.now)) (option_to_list (family (sense_of statement.now)))) }
{
    match statement {
        Statement::Leaf(..) => graph.push(Vec::new(alloc))?,
        Statement::Node(_, _, _, _, children) => {
            graph.push(numbers(alloc, nodes, children.as_slice())?)?
        }
        _ => {}
    }
    Ok(())
}

/// Returns the numbers of the children of each node and leaf, in the order of their lines. The
/// error means out of memory.
pub fn graph(
    alloc: Global,
    lines: &[(u32, Statement)],
    nodes: &Names<'_>,
) -> Result<Vec<Vec<u32>>, AllocError>
    requires rising { AreRising (entries_of lines.now) }
    requires few { AreFew (entries_of lines.now) }
    requires nodes { nodes.now ≡ declared node_name (entries_of lines.now) }
    ensures graph { IfOk result (λ g. lists g.items ≡ graph_of (entries_of lines.now)) }
    ensures size { IfOk result (λ g. length g.items ≡ length nodes.now) }
    ensures few { IfOk result (λ g. length g.items ≤ most_nodes) }
{
    let mut graph = Vec::new(alloc);
    for (_, statement) in lines {
        add_family(alloc, &mut graph, nodes, statement)?;
    }
    Ok(graph)
}
