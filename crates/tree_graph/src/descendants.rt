//! Descendants of nodes, and cycles.
ghost use Rattle.std.specs.Prelude.{◌≡◌, ℕ, ◌<◌, ◌^◌, length, All, IfOk, OnOk, IsTrue, ◌↔◌};
ghost use Rattle.tree_graph.specs.Descent.{lists, IsBelow, AreInRange, IsFirst};
ghost use Rattle.tree_graph.specs.Marks.{MarksMore, MarksBelow, is_marked};

use std::alloc::{AllocError, Global};

/// Marks the nodes of a list, and adds those that weren't marked yet to the work list.
fn mark_all(nodes: &[u32], marks: &mut [bool], work: &mut Vec<u32>) -> Result<(), AllocError>
    requires { All (λ i. i < length marks.old) nodes.now }
    ensures { OnOk result (MarksMore nodes.now marks.old work.old.items marks.new work.new.items) }
{
    for node in nodes {
        if !marks[*node as usize] {
            work.push(*node)?;
            marks[*node as usize] = true;
        }
    }
    Ok(())
}

/// Marks the descendants of a node, including the node itself if it is on a cycle. The error means
/// out of memory.
pub fn below(alloc: Global, graph: &[Vec<u32>], node: u32) -> Result<Vec<bool>, AllocError>
    requires within { node < length graph.now }
    requires in_range { AreInRange (lists graph.now) }
    ensures len { IfOk result (λ m. length m.items ≡ length graph.now) }
    ensures marks { IfOk result (λ m. (j : ℕ) → IsTrue (is_marked m.items j) ↔
        IsBelow (lists graph.now) node j) }
{
    let mut marks = vec![in alloc; false; graph.len()]?;
    let mut work = Vec::new(alloc);
    work.push(node)?;
    while let Some(next) = work.pop() {
        mark_all(
            graph[next as usize].as_slice(),
            marks.as_mut_slice(),
            &mut work,
        )?;
    }
    Ok(marks)
}

/// Returns the first node that is its own descendant. The error means out of memory.
pub fn first_on_cycle(alloc: Global, graph: &[Vec<u32>]) -> Result<Option<u32>, AllocError>
    requires in_range { AreInRange (lists graph.now) }
    requires small { length graph.now < 2 ^ 32 }
    ensures first { IfOk result (IsFirst (length graph.now) (λ a. IsBelow (lists graph.now) a a)) }
{
    for node in 0..graph.len() as u32 {
        let marks = below(alloc, graph, node)?;
        if marks[node as usize] {
            return Ok(Some(node));
        }
    }
    Ok(None)
}
