//! A packet without contents.
use crate::packet::Packet;
use rank_defs::FlowKey;

/// A blank packet, to be overwritten when a packet is read.
pub const BLANK: Packet = Packet {
    number: 0,
    class: 0,
    len: 0,
    moment: 0,
    flow: FlowKey {
        version: 0,
        source: 0,
        target: 0,
        proto: 0,
        sport: 0,
        dport: 0,
    },
};
