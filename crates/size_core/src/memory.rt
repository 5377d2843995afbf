//! The memory of queues that are as deep as they have to be.
ghost use Rattle.std.specs.Prelude.{◌≡◌};
ghost use Rattle.size_core.specs.Memory.{queue_bits, memory_of};

use crate::size::NodeSize;

/// The widths of a queue's fields, in bits.
#[derive(Clone, Copy, PartialEq, Eq, Debug)]
pub struct Widths {
    pub rank: u32,
    pub entry: u32,
}

/// Returns the bits of a queue that is as deep as the node's maximum number of entries.
fn queue_bits(widths: Widths, node: &NodeSize) -> u128
    ensures { result ≡ queue_bits widths node.now }
{
    u128::from(node.most) * (u128::from(widths.rank) + u128::from(widths.entry))
}

/// Returns the bits of all queues together, or 2^128 - 1 if that is less.
#[tactic(auto, using(crate::proofs::MemoryLaws::more_bits))]
pub(crate) fn memory_of(widths: Widths, nodes: &[NodeSize]) -> u128
    ensures { result ≡ memory_of widths nodes.now }
{
    let mut bits: u128 = 0;
    for node in nodes {
        bits = bits.saturating_add(queue_bits(widths, node));
    }
    bits
}
