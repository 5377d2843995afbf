//! What leaves and nodes say of their packets besides attributes.
ghost use Rattle.std.specs.Prelude.{◌≡◌};
ghost use Rattle.policy_text_defs.specs.Words.{bound_of, group_of};
ghost use Rattle.policy_text_defs.specs.Ranges.{bound_most};

use crate::word::is;
use rank_defs::FlowGroup;

/// The limits of a leaf or node, each of the packets in it or below it, and by what it tells flows
/// apart. What isn't written is `None`.
#[derive(Clone, Copy, PartialEq, Eq, Debug)]
pub struct Queueing {
    /// The most packets.
    pub packets: Option<u32>,
    /// The most bytes.
    pub bytes: Option<u32>,
    /// The most packets of one flow.
    pub per_flow: Option<u32>,
    pub by: Option<FlowGroup>,
}

/// What a limit counts.
#[derive(Clone, Copy, PartialEq, Eq, Debug)]
pub enum Bound {
    Packets,
    Bytes,
    /// The packets of each flow.
    PerFlow,
}

impl Bound {
    /// Returns the greatest limit that may be written.
    pub fn most(self) -> u64
        ensures { result ≡ bound_most self }
    {
        match self {
            Bound::Packets | Bound::PerFlow => 4_194_304,
            Bound::Bytes => u64::from(u32::MAX),
        }
    }

    /// Returns what a limit counts whose unit begins with the word: `packets`, `bytes`, or `per`,
    /// after which `flow` must follow.
    pub fn of(word: &[u8]) -> Option<Bound>
        ensures { result ≡ bound_of word.now }
    {
        if is(word, "packets") {
            Some(Bound::Packets)
        } else if is(word, "bytes") {
            Some(Bound::Bytes)
        } else if is(word, "per") {
            Some(Bound::PerFlow)
        } else {
            None
        }
    }
}

/// Returns by what flows are told apart if the keys begin with the word. After `src`, `dst` may
/// follow.
pub fn group_of(word: &[u8]) -> Option<FlowGroup>
    ensures { result ≡ group_of word.now }
{
    if is(word, "src") {
        Some(FlowGroup::Source)
    } else if is(word, "dst") {
        Some(FlowGroup::Target)
    } else if is(word, "5tuple") {
        Some(FlowGroup::FiveTuple)
    } else {
        None
    }
}
