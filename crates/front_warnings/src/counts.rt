//! Counts of a capture's packets.
use crate::links::has_fields;
use packet_core::Classifier;
use packet_defs::{BLANK, Packet};
use policy_core::Policy;
use std::alloc::{AllocError, Global};

/// A packet as a capture has it.
#[derive(Clone, Copy)]
pub struct Seen {
    /// The packet's link type.
    pub link: u16,
    /// The packet's original length in bytes.
    pub len: u32,
    /// The interface, counted from 0.
    pub interface: u32,
    /// The timestamp, in units of the interface.
    pub ticks: u64,
}

/// A count of packets, and the number of the first of them.
#[derive(Clone, Copy, PartialEq, Eq, Debug)]
pub struct Tally {
    pub count: u64,
    pub first: u64,
}

impl Tally {
    /// Returns a count of none.
    pub fn none() -> Tally {
        Tally { count: 0, first: 0 }
    }

    /// Counts the packet of this number.
    pub fn add(&mut self, number: u64) {
        if self.count == 0 {
            self.first = number;
        }
        self.count = self.count.saturating_add(1);
    }
}

/// Counts of a capture's packets.
#[derive(Drop)]
pub struct Counts<'a> {
    classifier: Classifier<'a>,
    packet: Packet,
    /// The version of the policy.
    pub version: u32,
    /// The packets of each class.
    pub classes: Vec<u64>,
    /// All packets.
    pub packets: u64,
    /// The packets whose link type gives no header fields.
    pub unread: Tally,
    /// The link type of the first of them.
    pub unread_link: u16,
    /// The packets whose timestamp is before that of the packet before.
    pub early: Tally,
    /// The packets whose fraction of a second is a second or more.
    pub fractions: Tally,
    /// The obsolete packet blocks.
    pub obsolete: u64,
    /// The link type of the first packet.
    pub link: Option<u16>,
    /// The first packet with another link type: its number and its link type.
    pub other_link: Option<(u64, u16)>,
    /// The packet with the latest timestamp of a classic capture: its number and its seconds.
    pub latest: Option<(u64, u32)>,
    last: Option<(u32, u64)>,
}

impl<'a> Counts<'a> {
    /// Creates counts of the packets that a policy classifies. Fails if out of memory.
    pub fn new(alloc: Global, policy: &'a Policy) -> Result<Counts<'a>, AllocError> {
        Ok(Counts {
            classifier: Classifier::new(alloc, policy)?,
            packet: BLANK,
            version: policy.version(),
            classes: vec![in alloc; 0; policy.classes().len()]?,
            packets: 0,
            unread: Tally::none(),
            unread_link: 0,
            early: Tally::none(),
            fractions: Tally::none(),
            obsolete: 0,
            link: None,
            other_link: None,
            latest: None,
            last: None,
        })
    }

    /// Counts a packet with these captured bytes.
    pub fn add(&mut self, seen: Seen, bytes: &[u8]) {
        self.packets = self.packets.saturating_add(1);
        self.add_link(seen.link);
        self.add_time(seen);
        self.add_class(seen, bytes);
    }

    /// Counts the packet's link type.
    fn add_link(&mut self, link: u16) {
        if !has_fields(self.version, link) {
            if self.unread.count == 0 {
                self.unread_link = link;
            }
            self.unread.add(self.packets);
        }
        match self.link {
            None => self.link = Some(link),
            Some(first) if first != link && self.other_link.is_none() => {
                self.other_link = Some((self.packets, link));
            }
            Some(_) => (),
        }
    }

    /// Compares the packet's timestamp with that of the packet before, if both are of one
    /// interface.
    fn add_time(&mut self, seen: Seen) {
        match self.last {
            Some((interface, ticks)) if interface == seen.interface && seen.ticks < ticks => {
                self.early.add(self.packets);
            }
            _ => (),
        }
        self.last = Some((seen.interface, seen.ticks));
    }

    /// Notes the seconds of the last packet's timestamp, and whether its fraction of a second is a
    /// second or more.
    pub fn add_seconds(&mut self, seconds: u32, is_more: bool) {
        match self.latest {
            Some((_, latest)) if seconds <= latest => (),
            _ => self.latest = Some((self.packets, seconds)),
        }
        if is_more {
            self.fractions.add(self.packets);
        }
    }

    /// Counts the packet's class.
    fn add_class(&mut self, seen: Seen, bytes: &[u8]) {
        self.packet.len = seen.len;
        self.classifier.classify(seen.link, bytes, &mut self.packet);
        if let Some(count) = self.classes.get_mut(self.packet.class as usize) {
            *count = count.saturating_add(1);
        }
    }
}
