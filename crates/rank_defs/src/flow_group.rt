//! The header fields by which packets are grouped into flows.
ghost use Rattle.std.specs.Prelude.{◌≡◌};
ghost use Rattle.rank_defs.specs.FlowGroups.{grouped};

use crate::environment::FlowKey;

/// The header fields by which packets are grouped into flows. The IP version always counts.
#[derive(Clone, Copy, PartialEq, Eq, Debug)]
pub enum FlowGroup {
    /// Addresses, protocol and ports.
    FiveTuple,
    /// The source address.
    Source,
    /// The destination address.
    Target,
    /// Both addresses.
    Hosts,
}

impl FlowGroup {
    /// Returns the key of a packet's group: the fields of its flow that don't count are 0.
    #[inline(always)]
    pub fn of(self, flow: &FlowKey) -> FlowKey
        ensures { result ≡ grouped self flow.now }
    {
        match self {
            FlowGroup::FiveTuple => *flow,
            FlowGroup::Source => FlowKey {
                version: flow.version,
                source: flow.source,
                target: 0,
                proto: 0,
                sport: 0,
                dport: 0,
            },
            FlowGroup::Target => FlowKey {
                version: flow.version,
                source: 0,
                target: flow.target,
                proto: 0,
                sport: 0,
                dport: 0,
            },
            FlowGroup::Hosts => FlowKey {
                version: flow.version,
                source: flow.source,
                target: flow.target,
                proto: 0,
                sport: 0,
                dport: 0,
            },
        }
    }
}
