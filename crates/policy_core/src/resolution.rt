//! Builds the policy that statements give.
ghost use Rattle.std.specs.Prelude.{◌≡◌, IfOk, IfErr, OnOk};
ghost use Rattle.policy_rules.specs.Accepted.{AreAccepted, AreComputable, AreShallow, HaveRoot, IsFault};
ghost use Rattle.policy_rules.specs.Entries.{entries_of, AreRising};
ghost use Rattle.policy_rules.specs.Graph.{graph_of};
ghost use Rattle.policy_rules.specs.Resolved.{IsResolved};
ghost use Rattle.tree_graph.specs.Descent.{lists};
ghost use Rattle.policy_rules.specs.Known.{known_programs};
ghost use Rattle.policy_rules.specs.Kept.{AreSpaces};
ghost use Rattle.policy_core.specs.PlaceLaws.{AreValid};

use crate::classes::classes;
use crate::faults::check_family;
use crate::graphs::graph;
use crate::homes::leaves;
use crate::nodes::policy_nodes;
use crate::policy::Policy;
use list_core::List;
use policy_rules::{
    PolicyFault, Spaces, check_leaves, check_limits, check_parents, checked_transactions,
    declarations, version,
};
use policy_text::Lines;
use policy_text_defs::Statement;
use range_core::Checked;
use std::alloc::{AllocError, Global};
use tree_graph::Preorder;

/// Builds a policy from accepted statements. The error means out of memory.
fn assemble(
    alloc: Global,
    lines: &[(u32, Statement)],
    spaces: &Spaces<'_>,
    programs: List<Checked>,
    graph: &[Vec<u32>],
) -> Result<Policy, AllocError>
    requires rising { AreRising (entries_of lines.now) }
    requires valid { AreValid (entries_of lines.now) }
    requires accepted { AreAccepted (entries_of lines.now) }
    requires spaces { AreSpaces (entries_of lines.now) spaces.now }
    requires programs { programs ≡ known_programs (entries_of lines.now) }
    requires graph { lists graph.now ≡ graph_of (entries_of lines.now) }
    ensures policy { IfOk result (IsResolved (entries_of lines.now)) }
{
    let root = spaces.nodes.place("root").unwrap_or(0) as u32;
    let tree = Preorder::new(alloc, graph, root)?;
    let policy_nodes = policy_nodes(alloc, lines, &spaces.transactions)?;
    let leaves = leaves(alloc, lines, &spaces.classes, &tree)?;
    let classes = classes(alloc, lines, leaves.as_slice())?;
    Ok(Policy::new(version(lines), tree, policy_nodes, programs, classes))
}

/// Rejects statements whose leaves or limits break a rule.
fn check_listings(alloc: Global, lines: &[(u32, Statement)]) -> Result<(), PolicyFault>
    requires rising { AreRising (entries_of lines.now) }
    requires shallow { AreShallow (entries_of lines.now) }
    ensures accepts { OnOk result (AreAccepted (entries_of lines.now)) }
    ensures refuses { IfErr result (IsFault (entries_of lines.now)) }
{
    check_leaves(alloc, lines)?;
    check_limits(lines)
}

/// Returns the policy of statements whose nodes have this graph, or the first clause that they
/// fail.
fn accept_graph(
    alloc: Global,
    lines: &[(u32, Statement)],
    spaces: &Spaces<'_>,
    programs: List<Checked>,
    graph: &[Vec<u32>],
) -> Result<Policy, PolicyFault>
    requires rising { AreRising (entries_of lines.now) }
    requires valid { AreValid (entries_of lines.now) }
    requires rooted { HaveRoot (entries_of lines.now) }
    requires spaces { AreSpaces (entries_of lines.now) spaces.now }
    requires programs { programs ≡ known_programs (entries_of lines.now) }
    requires graph { lists graph.now ≡ graph_of (entries_of lines.now) }
    ensures accepts { OnOk result (AreAccepted (entries_of lines.now)) }
    ensures policy { IfOk result (IsResolved (entries_of lines.now)) }
    ensures refuses { IfErr result (IsFault (entries_of lines.now)) }
{
    check_family(alloc, lines, &spaces.nodes, graph)?;
    check_listings(alloc, lines)?;
    Ok(assemble(alloc, lines, spaces, programs, graph)?)
}

/// Returns the policy of statements with these transactions, or the first clause that they fail.
fn accept_transactions(
    alloc: Global,
    lines: &[(u32, Statement)],
    spaces: &Spaces<'_>,
    programs: List<Checked>,
) -> Result<Policy, PolicyFault>
    requires rising { AreRising (entries_of lines.now) }
    requires valid { AreValid (entries_of lines.now) }
    requires computable { AreComputable (entries_of lines.now) }
    requires spaces { AreSpaces (entries_of lines.now) spaces.now }
    requires programs { programs ≡ known_programs (entries_of lines.now) }
    ensures accepts { OnOk result (AreAccepted (entries_of lines.now)) }
    ensures policy { IfOk result (IsResolved (entries_of lines.now)) }
    ensures refuses { IfErr result (IsFault (entries_of lines.now)) }
{
    check_parents(alloc, lines)?;
    let graph = graph(alloc, lines, &spaces.nodes)?;
    accept_graph(alloc, lines, spaces, programs, graph.as_slice())
}

/// Returns the policy that statements give, or the first clause that they fail.
fn accept(alloc: Global, lines: &[(u32, Statement)]) -> Result<Policy, PolicyFault>
    requires rising { AreRising (entries_of lines.now) }
    requires valid { AreValid (entries_of lines.now) }
    ensures accepts { OnOk result (AreAccepted (entries_of lines.now)) }
    ensures policy { IfOk result (IsResolved (entries_of lines.now)) }
    ensures refuses { IfErr result (IsFault (entries_of lines.now)) }
{
    let spaces = declarations(alloc, lines)?;
    let programs = checked_transactions(alloc, lines)?;
    accept_transactions(alloc, lines, &spaces, programs)
}

/// Returns the policy that statements give, or the first clause that they fail with its lowest
/// line. Names may be used before the line that declares them. The work grows with the text: names
/// are looked up in maps.
pub fn resolve(alloc: Global, lines: &Lines) -> Result<Policy, PolicyFault>
    ensures accepts { OnOk result (AreAccepted (entries_of lines.now.held)) }
    ensures policy { IfOk result (IsResolved (entries_of lines.now.held)) }
    ensures refuses { IfErr result (IsFault (entries_of lines.now.held)) }
{
    accept(alloc, lines.entries())
}
